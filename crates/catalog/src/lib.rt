// The catalog of molecules and the cache of answers on borrowed bytes: the calls add, remove and query. (01: catalogue, shelf.)
#![tactic(auto)]

ghost use Rattle.std.specs.Prelude.{◌≡◌, length};
ghost use Rattle.strand.specs.Lent.{lent};
ghost use Rattle.embedding.specs.Longest.{embeds};
ghost use Rattle.refusals.specs.Rules.{WorkKept};
ghost use Rattle.calls.specs.Calls.{effect, add_outcome, remove_outcome, queried, query_verdict, query_outcome};

pub use calls::{Added, Hits, Queried, Removed};
use strand::Strand;

// The call add: writes the molecule under number d, and answers its fold.
pub fn add(catalog: &mut [u8], cache: &mut [u8], d: usize, molecule: &Strand) -> Added
    ensures { effect result catalog.new cache.new
        ≡ add_outcome catalog.old cache.old d (lent molecule.now) }
{
    judge::judge_add(catalog, cache, d, molecule)?;
    buffer::clean_all(cache);
    buffer::put_molecule(catalog, d, molecule);
    Ok(strand::depth::fold_of(molecule.mates))
}

// The call remove: takes number d out of the catalog and of every cache entry.
pub fn remove(catalog: &mut [u8], cache: &mut [u8], d: usize) -> Removed
    ensures { effect result catalog.new cache.new ≡ remove_outcome catalog.old cache.old d }
{
    judge::judge_remove(catalog, cache, d)?;
    buffer::clean_all(cache);
    buffer::zero_at(catalog, d);
    buffer::forget_all(cache, d);
    Ok(())
}

// The call query: the numbers of the hits, rising, at the start of `hits`. A held molecule that the slot's entry has searched for this very motif is a
// hit by its bit; any other held one if the motif embeds. What an accepted query leaves in `work` is free.
pub fn query(
    catalog: &[u8],
    cache: &mut [u8],
    motif: &Strand,
    work: &mut [u16],
    hits: &mut [u16],
) -> Queried
    ensures { (queried result cache.new hits.new
        ≡ query_outcome embeds catalog.now cache.old (lent motif.now) (length work.old)
        hits.old)
        × WorkKept (query_verdict catalog.now cache.old (lent motif.now) (length work.old)
        (length hits.old)) work.old work.new }
{
    judge::judge_query(catalog, cache, motif, work.len(), hits.len())?;
    buffer::clean_all(cache);
    search::answer(catalog, cache, motif, work, hits)
}
