// The rules that judge add, remove and query: which refusal of a call applies first. Nothing is written here.
#![tactic(auto)]

ghost use Rattle.std.specs.Prelude.{◌≡◌, not};
ghost use Rattle.std.specs.List.{find, range_with_len};
ghost use Rattle.strand.specs.Lent.{lent};
ghost use Rattle.block.specs.Block.{block_of, block_count, sound_molecule};
ghost use Rattle.calls.specs.Buffers.{is_whole, held, buffers_verdict};
ghost use Rattle.calls.specs.Calls.{add_verdict, remove_verdict, query_verdict};
ghost use Rattle.judge.specs.Judge.{SoundCatalog};

use block::layout;
use refusals::{Rule, Side, Verdict, refuse};
use strand::{LEAST_MOLECULE, LEAST_MOTIF, Strand};

// The most blocks of a catalog and of a cache (specs/Buffers of calls has the same numbers).
pub const MOST_CATALOG_BLOCKS: usize = 512;

pub const MOST_CACHE_BLOCKS: usize = 64;

// Whether a buffer is 1 to `most` whole blocks.
pub fn is_whole(buf: &[u8], most: usize) -> bool
    ensures { result ≡ is_whole most buf.now }
{
    if buf.len() % layout::BLOCK_SIZE != 0 {
        return false;
    }
    let n = layout::block_count(buf);
    if n < 1 {
        return false;
    }
    n <= most
}

// The lowest unsound block: the soundness pass.
fn first_unsound(catalog: &[u8]) -> Option<usize>
    ensures { result ≡ find (λ d. not (sound_molecule (block_of d catalog.now))) (range_with_len 0 (block_count catalog.now)) }
{
    let n = layout::block_count(catalog);
    (0..n).find(|d| !block::sound::sound_at(catalog, *d))
}

// Rules 10 and 11.
pub fn judge_buffers(catalog: &[u8], cache: &[u8]) -> Verdict
    ensures { result ≡ buffers_verdict catalog.now cache.now }
{
    if !is_whole(catalog, MOST_CATALOG_BLOCKS) {
        return refuse(Rule::NotWholeBlocks, Side::Neither, 0);
    }
    if !is_whole(cache, MOST_CACHE_BLOCKS) {
        return refuse(Rule::NotWholeBlocks, Side::Neither, 0);
    }
    if let Some(unsound) = first_unsound(catalog) {
        return refuse(Rule::UnsoundBlock, Side::Neither, unsound);
    }
    Ok(())
}

// Whether molecule d is held. A sound block is empty exactly when its byte 0 is 0. Rules 10 and 11 have let the catalog pass.
pub fn is_held(catalog: &[u8], d: usize) -> bool
    requires { SoundCatalog catalog.now }
    ensures { result ≡ held catalog.now d }
{
    if layout::block_count(catalog) <= d {
        return false;
    }
    let b = layout::block_at(catalog, d);
    b[0] != 0
}

// The rules of add, of remove and of query, in the table's order.
pub fn judge_add(catalog: &[u8], cache: &[u8], d: usize, molecule: &Strand) -> Verdict
    ensures { result ≡ add_verdict catalog.now cache.now d (lent molecule.now) }
{
    judge_buffers(catalog, cache)?;
    if layout::block_count(catalog) <= d {
        return refuse(Rule::NumberTooLarge, Side::Neither, 0);
    }
    if is_held(catalog, d) {
        return refuse(Rule::AlreadyHeld, Side::Neither, 0);
    }
    strand::check_strand(
        molecule,
        Side::Molecule,
        LEAST_MOLECULE,
        layout::BLOCK_BASES,
    )
}

pub fn judge_remove(catalog: &[u8], cache: &[u8], d: usize) -> Verdict
    ensures { result ≡ remove_verdict catalog.now cache.now d }
{
    judge_buffers(catalog, cache)?;
    if layout::block_count(catalog) <= d {
        return refuse(Rule::NumberTooLarge, Side::Neither, 0);
    }
    if !is_held(catalog, d) {
        return refuse(Rule::NotHeld, Side::Neither, 0);
    }
    Ok(())
}

// `work` and `room` are the lengths of the work and the hit slice.
pub fn judge_query(
    catalog: &[u8],
    cache: &[u8],
    motif: &Strand,
    work: usize,
    room: usize,
) -> Verdict
    ensures { result ≡ query_verdict catalog.now cache.now (lent motif.now) work room }
{
    judge_buffers(catalog, cache)?;
    strand::check_strand(motif, Side::Motif, LEAST_MOTIF, layout::ENTRY_BASES)?;
    if room < layout::block_count(catalog) {
        return refuse(Rule::WrongSlice, Side::Neither, 0);
    }
    if work < 64 * (motif.bases.len() + 1) + 8 * layout::BLOCK_BASES {
        return refuse(Rule::WorkTooShort, Side::Neither, 0);
    }
    Ok(())
}
