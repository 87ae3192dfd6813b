// What lines act on.
use super::blocks::BLOCK;
use super::cases::{Decoding, Encoding, Kind, Preparation, Question};
use super::{Counts, blocks};
use std::alloc::{AllocError, Global};
use testing::random::{letter, next};
use testing::slices::{entry, first, first_mut, rest, set, sum};
use testing::strands::Strand;

// Three blocks and a byte.
const IMAGE: usize = 1537;

// More bases than a block holds.
const STRAND_ROOM: u16 = 162;

// How many bases and mates a line may have decoded.
const MOST_BASES: usize = 292;

const MOST_MATES: usize = 168;

// The room of a map.
const MAP: usize = 65;

// What a command answers where its line asks for more than there is room; only a sum can be as large.
const NO_ROOM: usize = 65535;

// The image, a strand of which calls get the first bases and the first mates, and two maps one behind the other, of which they get the first bytes.
#[derive(Debug, Drop)]
pub struct State {
    image: Vec<u8>,
    strand: Strand,
    bases: usize,
    mates: usize,
    maps: Vec<u8>,
    searched: usize,
    hits: usize,
}

// Random letters, without a bond.
fn unbonded(alloc: Global, seed: usize) -> Result<Strand, AllocError> {
    let mut bases = Vec::new(alloc);
    let mut x = seed;
    for _ in 0..STRAND_ROOM {
        x = next(x);
        bases.push(letter(x / 16 % 5))?;
    }
    let mates = (0..STRAND_ROOM).collect(alloc)?;
    Ok(Strand { bases, mates })
}

// The first n bytes of the image, if it has as many.
fn part(image: &mut [u8], n: usize) -> Option<&mut [u8]> {
    image.get_mut(..n)
}

// The number of an answer.
fn answered(yes: Option<bool>) -> usize {
    yes.map_or(NO_ROOM, usize::from)
}

impl State {
    pub fn new(alloc: Global) -> Result<State, AllocError> {
        Ok(State {
            image: vec![in alloc; 0; IMAGE]?,
            strand: Strand {
                bases: vec![in alloc; 0; usize::from(STRAND_ROOM)]?,
                mates: vec![in alloc; 0; usize::from(STRAND_ROOM)]?,
            },
            bases: 0,
            mates: 0,
            maps: vec![in alloc; 0; 2 * MAP]?,
            searched: 0,
            hits: 0,
        })
    }

    // Word i becomes x. In the input's language the words are the mates and, behind them, how many bases and mates calls get, how many bytes of each map,
    // and how many answers were right and how many wrong. Past the last nothing changes.
    fn set_word(&mut self, counts: &mut Counts, i: usize, x: u16) {
        let number = usize::from(x);
        match i.checked_sub(self.strand.mates.len()) {
            Some(0) => self.bases = number,
            Some(1) => self.mates = number,
            Some(2) => self.searched = number,
            Some(3) => self.hits = number,
            Some(4) => counts.right = number,
            Some(5) => counts.wrong = number,
            _ => set(&mut self.strand.mates, i, x),
        }
    }

    pub fn prepare(
        &mut self,
        alloc: Global,
        preparation: Preparation,
        counts: &mut Counts,
    ) -> Result<(), AllocError> {
        match preparation {
            Preparation::Strand(bases, mates, seed) => {
                self.strand = unbonded(alloc, seed)?;
                self.bases = bases;
                self.mates = mates;
            }
            Preparation::Arc(i, j) => {
                self.set_word(counts, i, entry(j));
                self.set_word(counts, j, entry(i));
            }
            Preparation::Maps(searched, hits) => {
                self.maps.fill(0);
                self.searched = searched;
                self.hits = hits;
            }
            Preparation::Searched(d) => octets::bits::set(&mut self.maps, 0, d),
            Preparation::Hit(d) => octets::bits::set(&mut self.maps, MAP, d),
            Preparation::Byte(i, x) => set(&mut self.image, i, x),
        }
        Ok(())
    }

    fn encode(&mut self, encoding: Encoding, n: usize) -> Option<bool> {
        let strand = strand::Strand {
            bases: first(&self.strand.bases, self.bases),
            mates: first(&self.strand.mates, self.mates),
        };
        let image = part(&mut self.image, n)?;
        Some(match encoding {
            Encoding::Molecule => codec::molecule::encode_molecule(image, &strand),
            Encoding::Entry => {
                let searched = first(&self.maps, self.searched);
                let hits = first(rest(&self.maps, MAP), self.hits);
                codec::entry::encode_entry(image, &strand, searched, hits)
            }
            Encoding::Block(d) => buffer::put_molecule(image, d, &strand),
            Encoding::Keeps => codec::entry::keeps(image, &strand),
        })
    }

    // How many bases the block has; 0, too, where it cannot be decoded.
    fn decode(&mut self, decoding: Decoding, bases: usize, mates: usize) -> Option<usize> {
        let bases = bases % 1000;
        if MOST_BASES < bases || MOST_MATES < mates {
            return None;
        }
        let bases = first_mut(&mut self.strand.bases, bases);
        let mates = first_mut(&mut self.strand.mates, mates);
        let block = first(&self.image, BLOCK);
        let decoded = match decoding {
            Decoding::Molecule => codec::molecule::decode_molecule(block, bases, mates),
            Decoding::Motif => codec::molecule::decode_motif(block, bases, mates),
            Decoding::Short => {
                codec::molecule::decode_molecule(first(block, BLOCK - 1), bases, mates)
            }
        };
        Some(decoded.unwrap_or(0))
    }

    fn checksum(&mut self, n: usize) -> Option<bool> {
        let bytes = part(&mut self.image, n)?;
        block::checksum::put_checksum(bytes);
        Some(blocks::is_summed(bytes))
    }

    fn forget(&mut self, d: usize) -> bool {
        let block = first_mut(&mut self.image, BLOCK);
        codec::entry::forget(block, d);
        blocks::is_sound(Kind::Entry, block)
    }

    fn clean_all(&mut self) -> usize {
        buffer::clean_all(&mut self.image);
        sum(&self.image) as usize
    }

    fn forget_all(&mut self, d: usize) -> usize {
        buffer::forget_all(&mut self.image, d);
        sum(&self.image) as usize
    }

    pub fn answer(&mut self, question: Question) -> usize {
        match question {
            Question::Encode(encoding, n) => answered(self.encode(encoding, n)),
            Question::Decode(decoding, bases, mates) => {
                self.decode(decoding, bases, mates).unwrap_or(NO_ROOM)
            }
            Question::SumImage => sum(&self.image) as usize,
            Question::SumBases => sum(&self.strand.bases) as usize,
            Question::SumMates => sum(&self.strand.mates) as usize,
            Question::Sound(kind, n) => {
                answered(part(&mut self.image, n).map(|s| blocks::is_sound(kind, s)))
            }
            Question::Checksum(n) => answered(self.checksum(n)),
            Question::Bits(d) => blocks::bits(first(&self.image, BLOCK), d),
            Question::Damage(i, x, number) => {
                blocks::damage(number, first_mut(&mut self.image, BLOCK), i, x)
            }
            Question::Forget(d) => usize::from(self.forget(d)),
            Question::Zero(d) => usize::from(buffer::zero_at(&mut self.image, d)),
            Question::SoundAt(d) => usize::from(block::sound::sound_at(&self.image, d)),
            Question::CleanAll => self.clean_all(),
            Question::ForgetAll(d) => self.forget_all(d),
        }
    }
}
