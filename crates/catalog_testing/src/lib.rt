// What the test programs of the calls on catalog and cache share: the lines of their input, the calls that lines ask for, and the counts of a group.
// Each call's answer, every byte of catalog and cache that it leaves, and every entry of the hits are held to a plain model, and where it is refused
// every entry of the work slice too. The model is that of `tools/catalog_lines.py`, which makes the lines: of the bytes and of the hits the lines have
// sums, which one other byte changes.
//
// A line has 104 bytes: a letter and, by column, numbers: 2 number d (seven digits), 10 bytes of the catalog (six), 17 bytes of the cache and 23
// entries of the work slice (five), 29 entries of the hits (three), 33 the answer (nine); then 43 bases and 57 mates, a digit each (10 and more are
// letters, `z` means 65535), or in the place of the mates `-` or `=`: none is bonded, or each with the one as far from the other end; 71 how many
// of the bases are written, the others repeat them (two digits), 74 how many bases there are and 78 how many mates (three), 82 the sum of catalog
// and cache, 93 that of the hits (ten). Letters: `A` add, `R` remove, `Q` query. `N` empties the buffer. `S` sets byte d of the buffer to the value of
// column 23, `B` too, uncounted. `G` ends a group: its counts are written behind its name, which stands in column 5, its length in column 2.
// Remarks begin with `#`. The answer is in column 35 a refusal's row, 37 its side and 38 its place; or in column 33 a 1 and behind it two numbers: for an
// accepted add the arcs of its molecule and the depth, for an accepted query the count and how many molecules were searched; or zeros for an accepted remove.
//
// The buffer begins with 513 blocks of the catalog and 65 of the cache, one more than a call may have.
#![tactic(auto)]

pub mod counts;
pub mod image;
pub mod lines;

use counts::{Counts, Kind};
use image::Image;
use lines::{Answer, Call, Command, Sizes};
use std::alloc::{AllocError, Global};
use std::io;
use testing::lent::Lent;
use testing::slices::sum;
use testing::strands::Strand;

// The bytes of a line, with its end.
pub const LINE: usize = 104;

// What slices are filled with before a call.
pub const FILL: u16 = 1799;

const WORK_ROOM: usize = 12000;

const HITS_ROOM: usize = 512;

// What the lines act on, and the counts of a group.
#[derive(Debug, Drop)]
pub struct Bench {
    pub image: Image,
    pub work: Lent,
    hits: Lent,
    pub counts: Counts,
}

impl Bench {
    // A bench with so many motif blocks behind the cache.
    pub fn new(alloc: Global, bank: u8) -> Result<Bench, AllocError> {
        Ok(Bench {
            image: Image::new(alloc, bank)?,
            work: Lent::new(alloc, FILL, WORK_ROOM)?,
            hits: Lent::new(alloc, FILL, HITS_ROOM)?,
            counts: Counts::default(),
        })
    }

    // There is so much of catalog, work and hits as a call asks for.
    fn has_room(&self, call: Call, sizes: Sizes) -> bool {
        match call {
            Call::Query => !self.work.is_short() && !self.hits.is_short(),
            _ => self.image.has_catalog(sizes),
        }
    }

    // Makes a call; its answer, None where its line asks for more than there is room.
    fn made(&mut self, call: Call, sizes: Sizes, strand: &Strand) -> Option<Answer> {
        if !self.has_room(call, sizes) {
            return None;
        }
        let (catalog, cache) = self.image.lend(sizes)?;
        Some(match call {
            Call::Add(d) => Answer::of_add(catalog::add(catalog, cache, d, &strand.lent())),
            Call::Remove(d) => Answer::of_remove(catalog::remove(catalog, cache, d)),
            Call::Query => Answer::of_query(catalog::query(
                catalog,
                cache,
                &strand.lent(),
                self.work.part(),
                self.hits.part(),
            )),
        })
    }

    // The call of a line, held to it.
    fn ask<R: Print + AllocGlobal>(&mut self, rt: &R, line: &[u8], call: Call) -> io::Result<()> {
        let sizes = Sizes::of(line);
        self.work.begin(sizes.work);
        self.hits.begin(sizes.hits);
        let answer = self.made(call, sizes, &lines::strand_of(rt.alloc(), line)?);
        let (kind, right) = match call {
            Call::Query => (Kind::Query, self.hold(line, answer, &self.hits)),
            _ => (Kind::Update, true),
        };
        self.judge(rt, line, kind, answer, right)
    }

    // The hits are those of the model, and a refused call left the work slice alone.
    pub fn hold(&self, line: &[u8], answer: Option<Answer>, hits: &Lent) -> bool {
        let refused = matches!(answer, Some(Answer::Refused(_)));
        lines::is_sum(line, 93..103, sum(hits.entries())) && (!refused || self.work.kept_behind(0))
    }

    // Counts an answer, and writes its line where it is wrong: where it or what it left in the image or in other slices is not that of the model.
    pub fn judge<P: Print>(
        &mut self,
        out: &P,
        line: &[u8],
        kind: Kind,
        answer: Option<Answer>,
        slices_right: bool,
    ) -> io::Result<()> {
        let image_right = lines::is_sum(line, 82..92, self.image.sum(Sizes::of(line)));
        match answer {
            Some(answer) if slices_right && image_right && answer == Answer::of(line) => {
                self.counts.count(kind, answer);
                Ok(())
            }
            _ => {
                self.counts.wrong += 1;
                out.write_all(line)
            }
        }
    }

    // Acts on a line.
    pub fn act<R: Print + AllocGlobal>(&mut self, rt: &R, line: &[u8]) -> io::Result<()> {
        match Command::of(line) {
            Some(Command::Ask(call)) => self.ask(rt, line, call)?,
            Some(Command::SetByte(i, x)) => {
                self.counts.bytes += 1;
                self.image.set_byte(i, x);
            }
            Some(Command::SetByteUncounted(i, x)) => self.image.set_byte(i, x),
            Some(Command::Empty) => self.image.clear(),
            None => {}
        }
        Ok(())
    }
}
