// The blocks of a buffer, one after the other.
#![tactic(auto)]

ghost use Rattle.std.specs.Prelude.{◌≡◌, Bool, ◌&&◌, List, ℕ};
ghost use Rattle.strand.specs.Lent.{lent};
ghost use Rattle.block.specs.Block.{put_block, each_block, cleaned, forgot};
ghost use Rattle.buffer.specs.Buffer.{block_fits, molecule_put, entry_put, zero_put};
ghost use Rattle.buffer.specs.Steps.{Leaves, Writes};
ghost use Rattle.codec.specs.Outcomes.{wrote, wrote_if};

use block::layout;
use strand::Strand;

// One step at every block, in order. Its bounds by hand: of a slice cut by `chunks_exact_mut` nothing is known afterwards.
fn each_block<F: Fn(&mut [u8])>(s: &mut [u8], step: F)
    requires { F.IsAlwaysCallable step }
    ensures { (f : List ℕ → List ℕ) → Leaves (F.post step) f → s.new ≡ each_block f s.old }
{
    for d in 0..layout::block_count(s) {
        let a = layout::BLOCK_SIZE * d;
        let e = a + layout::BLOCK_SIZE;
        step(&mut s[a..e]);
    }
}

// One step at block d, and its answer. False, and nothing written, where there is no block d. Its bounds by hand, as in `each_block`.
fn at_block<F: FnOnce(&mut [u8]) -> bool>(buf: &mut [u8], d: usize, step: F) -> bool
    requires { F.IsAlwaysCallable step }
    ensures { (fits : Bool) (b : List ℕ) → Writes (F.post step) fits b
        → wrote result buf.new ≡ wrote_if (block_fits d buf.old && fits) (put_block d b buf.old) buf.old }
{
    if layout::block_count(buf) <= d {
        return false;
    }
    let a = layout::BLOCK_SIZE * d;
    let e = a + layout::BLOCK_SIZE;
    step(&mut buf[a..e])
}

// Zero each cache block that is not sound.
pub fn clean_all(s: &mut [u8])
    ensures { s.new ≡ each_block cleaned s.old }
{
    each_block(s, |block| codec::entry::clean(block));
}

// Take number d out of each cache entry.
pub fn forget_all(s: &mut [u8], d: usize)
    ensures { s.new ≡ each_block (forgot d) s.old }
{
    each_block(s, |block| codec::entry::forget(block, d));
}

// Write the block of a molecule at number d. False, and nothing written, where there is no block d or the molecule does not fit. The step holds the slices
// and makes the strand again: nothing is known afterwards of a step that holds the struct.
pub fn put_molecule(buf: &mut [u8], d: usize, molecule: &Strand) -> bool
    ensures { wrote result buf.new ≡ molecule_put d (lent molecule.now) buf.old }
{
    let Strand { bases, mates } = *molecule;
    at_block(buf, d, |block| {
        codec::molecule::encode_molecule(block, &Strand { bases, mates })
    })
}

// Write the entry of a motif with its two maps as block k. False, and nothing written, where there is no block k, the motif does not fit or a map is
// not 64 bytes. The step holds slices, as in `put_molecule`.
pub fn put_entry(buf: &mut [u8], k: usize, motif: &Strand, searched: &[u8], hits: &[u8]) -> bool
    ensures { wrote result buf.new
        ≡ entry_put k (lent motif.now) searched.now hits.now buf.old }
{
    let Strand { bases, mates } = *motif;
    at_block(buf, k, |block| {
        codec::entry::encode_entry(block, &Strand { bases, mates }, searched, hits)
    })
}

// Zero block d. False, and nothing written, where there is no block d.
pub fn zero_at(buf: &mut [u8], d: usize) -> bool
    ensures { wrote result buf.new ≡ zero_put d buf.old }
{
    at_block(buf, d, |block| {
        block.fill(0);
        true
    })
}
