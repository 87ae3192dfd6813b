// A molecule block, encoded into a borrowed block and decoded into borrowed slices; a block handed in as a motif, decoded.
ghost use Rattle.std.specs.Prelude.{◌≡◌, ◌≤◌, ◌++◌, length, drop};
ghost use Rattle.strand.specs.Lent.{on_strand};
ghost use Rattle.block.specs.Content.{block_size, length_in, strand_in};
ghost use Rattle.block.specs.Inner.{kind_of};
ghost use Rattle.codec.specs.Outcomes.{wrote, molecule_wrote, decoded, decodes, molecule_decoded, motif_decoded};

use block::kind::{self, Kind};
use block::layout;
use strand::Strand;

// Write the block of a molecule of at most 160 bases. False, and nothing written, where s is not one block or the molecule does not fit.
pub fn encode_molecule(s: &mut [u8], molecule: &Strand) -> bool
    ensures { wrote result s.new ≡ on_strand (molecule_wrote s.old) molecule.now }
{
    if !crate::parts::strand_fits(
        s.len(),
        layout::BLOCK_BASES,
        molecule.bases.len(),
        molecule.mates.len(),
    ) {
        return false;
    }
    crate::parts::put_content(s, &kind::MOLECULE, b"", molecule);
    block::checksum::put_checksum(s);
    true
}

// The bases and mates of a block of the kind into the start of the borrowed slices; how many there are. `decode_molecule` meets the requires.
#[tactic(auto, unfolding(block::specs::Content::strand_in))]
fn decode(s: &[u8], kind: &Kind, bases: &mut [u8], mates: &mut [u16]) -> usize
    requires { (length s.now ≡ block_size) × (length_in s.now ≤ kind.now.most) × (length_in s.now ≤ length bases.old)
        × (length_in s.now ≤ length mates.old) }
    ensures { (result ≡ length_in s.now) × (bases.new ≡ (strand_in (kind_of kind.now) s.now).bases ++ drop result bases.old)
        × (mates.new ≡ (strand_in (kind_of kind.now) s.now).mates ++ drop result mates.old) }
{
    let n = s[1] as usize;
    let e = kind.start + n;
    let f = kind.start + kind.most;
    bases[..n].copy_from_slice(&s[kind.start..e]);
    octets::scan::read_words(&s[f..], &mut mates[..n]);
    n
}

// Whether s is of one block's length, its length byte is at most 160, and the slices have so many places.
#[tactic(auto, using(crate::proofs::OutcomeLaws::decodes_too_long))]
fn can_decode(s: &[u8], bases: usize, mates: usize) -> bool
    ensures { result ≡ decodes s.now bases mates }
{
    if s.len() != layout::BLOCK_SIZE {
        return false;
    }
    let n = s[1] as usize;
    if layout::BLOCK_BASES < n {
        return false;
    }
    if bases < n {
        return false;
    }
    n <= mates
}

// The molecule of a block into the start of the borrowed slices; how many bases it has. None, and nothing written, where s can be no block or
// a slice is too short. Soundness is not tested again: query decodes a block after the soundness pass.
pub fn decode_molecule(s: &[u8], bases: &mut [u8], mates: &mut [u16]) -> Option<usize>
    ensures { decoded result bases.new mates.new ≡ molecule_decoded s.now bases.old mates.old }
{
    if !can_decode(s, bases.len(), mates.len()) {
        return None;
    }
    Some(decode(s, &kind::MOLECULE, bases, mates))
}

// The same for the motif of a block handed in as one, which is laid out alike.
pub fn decode_motif(s: &[u8], bases: &mut [u8], mates: &mut [u16]) -> Option<usize>
    ensures { decoded result bases.new mates.new ≡ motif_decoded s.now bases.old mates.old }
{
    decode_molecule(s, bases, mates)
}
