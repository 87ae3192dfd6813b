// The plan of a batch: for each motif the numbers that its query has to search, by a copy of the cache in which each query leaves its entry.
ghost use Rattle.std.specs.Prelude.{◌≡◌, ◌++◌, ◌<◌, ◌≤◌, [], length, drop, get_or, replicate};
ghost use Rattle.std.specs.List.{count_by, range_with_len};
ghost use Rattle.lists.specs.Vocabulary.{select, tab};
ghost use Rattle.octets.specs.Octets.{map_size, map_bit, map_bytes};
ghost use Rattle.block.specs.Block.{block_count};
ghost use Rattle.calls.specs.Motifs.{most_motifs, motif_of};
ghost use Rattle.batch.specs.Steps.{Planning, planned, planned_by, PlannedTo};

use crate::Maps;
use block::layout;
use motifs::Motifs;

// The bytes of the largest cache.
const CACHE_SIZE: usize = layout::BLOCK_SIZE * judge::MOST_CACHE_BLOCKS;

// The numbers that query t has to search, by the entry of its slot, into the map; then the entry that it leaves. Its hits are not known yet: every held
// number has its hit bit.
fn plan_motif(motifs: &Motifs, t: usize, held: &[u8], cache: &mut [u8], todo: &mut [u8])
    requires { Planning held.now cache.old × (t < block_count motifs.now.blocks.now) × (length todo.old ≡ map_size) }
    ensures { (todo.new ≡ map_bytes (planned_by held.now cache.old (motif_of motifs.now.blocks.now t)))
        × (cache.new ≡ planned held.now cache.old (motif_of motifs.now.blocks.now t)) }
{
    let motif = motifs.motif_at(t);
    let s = search::slot(&motif, layout::block_count(cache));
    let entry = layout::block_at(cache, s);
    let same = codec::entry::keeps(entry, &motif);
    search::maps::fill_todo(entry, same, held, todo);
    buffer::put_entry(cache, s, &motif, held, held);
}

// All motifs, in their order: map t has the numbers that query t has to search.
fn plan_all(motifs: &Motifs, held: &[u8], cache: &mut [u8]) -> Maps
    requires { Planning held.now cache.old }
    ensures { PlannedTo motifs.now.blocks.now held.now cache.old result (block_count motifs.now.blocks.now) }
{
    let mut todo = [[0u8; layout::MAP_SIZE]; calls::MOST_MOTIFS];
    for t in 0..motifs.count() {
        plan_motif(motifs, t, held, cache, &mut todo[t]);
    }
    todo
}

// The same, and the cache stays: a copy of it takes the entries.
pub(crate) fn plan(motifs: &Motifs, held: &[u8], cache: &[u8]) -> Maps
    requires { Planning held.now cache.now }
    ensures { PlannedTo motifs.now.blocks.now held.now cache.now result (block_count motifs.now.blocks.now) }
{
    let mut room = [0u8; CACHE_SIZE];
    let copy = &mut room[..cache.len()];
    copy.copy_from_slice(cache);
    plan_all(motifs, held, copy)
}

// How many numbers below n the map has.
fn count_in(map: &[u8], n: usize) -> usize
    ensures { result ≡ count_by (map_bit map.now 0) (range_with_len 0 n) }
{
    (0..n).filter(|d| octets::bits::test(map, 0, *d)).count()
}

// How many numbers below n each of the first k maps has.
pub(crate) fn count_all(todo: &Maps, k: usize, n: usize) -> [usize; calls::MOST_MOTIFS]
    requires { k ≤ most_motifs }
    ensures { result ≡ tab k (λ t. length (select n (map_bit (get_or todo.now t []) 0))) ++ drop k (replicate most_motifs 0) }
{
    let mut searched = [0usize; calls::MOST_MOTIFS];
    for t in 0..k {
        searched[t] = count_in(&todo[t], n);
    }
    searched
}
