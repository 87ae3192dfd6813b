// The answers of a batch, motif by motif, from the hits that were found in the molecules read: each query reads its slot's entry and leaves its own.
ghost use Rattle.std.specs.Prelude.{◌≡◌, true, ◌||◌, ◌++◌, ◌<◌, ◌≤◌, [], length, drop, get_or, replicate};
ghost use Rattle.lists.specs.Vocabulary.{tab};
ghost use Rattle.strand.specs.Lent.{lent};
ghost use Rattle.octets.specs.Octets.{map_size, map_bit, map_bytes};
ghost use Rattle.block.specs.Block.{sound_entry, block_count};
ghost use Rattle.embedding.specs.Longest.{embeds};
ghost use Rattle.calls.specs.Motifs.{most_motifs, motif_of};
ghost use Rattle.calls.specs.Batch.{batch_state, batch_to, query_at, count_of};
ghost use Rattle.search.specs.Search.{answered};
ghost use Rattle.batch.specs.Steps.{Answering, Batching, known_of};

use crate::Maps;
use block::layout;
use motifs::Motifs;
use strand::Strand;

// The hits of a motif: those that the entry of its slot knows, and those found.
fn hits_of(entry: &[u8], motif: &Strand, held: &[u8], found: &[u8]) -> [u8; layout::MAP_SIZE]
    requires { (sound_entry entry.now ≡ true) × (length held.now ≡ map_size) × (length found.now ≡ map_size) }
    ensures { result ≡ map_bytes (λ d. known_of held.now entry.now (lent motif.now) d || map_bit found.now 0 d) }
{
    let mut hit = [0u8; layout::MAP_SIZE];
    let same = codec::entry::keeps(entry, motif);
    search::maps::fill_known(entry, same, held, &mut hit);
    octets::maps::join(&mut hit, found, 0);
    hit
}

// The answer of query t, whose hits among the molecules read are found: its hits, rising, at the start of the borrowed entries, and its entry in its slot;
// how many hits there are.
fn answer_motif(
    catalog: &[u8],
    cache: &mut [u8],
    motifs: &Motifs,
    t: usize,
    held: &[u8],
    found: &[u8],
    hits: &mut [u16],
) -> usize
    requires { Answering catalog.now motifs.now.blocks.now held.now found.now cache.old t × (block_count catalog.now ≤ length hits.old) }
    ensures { (result ≡ count_of (answered catalog.now cache.old (motif_of motifs.now.blocks.now t) hits.old).answer)
        × (cache.new ≡ (answered catalog.now cache.old (motif_of motifs.now.blocks.now t) hits.old).cache)
        × (hits.new ≡ (answered catalog.now cache.old (motif_of motifs.now.blocks.now t) hits.old).hits) }
{
    let motif = motifs.motif_at(t);
    let s = search::slot(&motif, layout::block_count(cache));
    let hit = hits_of(layout::block_at(cache, s), &motif, held, found);
    let count = search::list_hits(&hit, layout::block_count(catalog), hits);
    buffer::put_entry(cache, s, &motif, held, &hit);
    count
}

// The answers of all motifs, in their order: the hits of motif t from entry t * n on, n being the number of catalog blocks, and its count at t. `work` is the
// length of the work slice, which the rules of a query read.
pub(crate) fn answer_all(
    catalog: &[u8],
    cache: &mut [u8],
    motifs: &Motifs,
    work: usize,
    held: &[u8],
    found: &Maps,
    hits: &mut [u16],
) -> [usize; calls::MOST_MOTIFS]
    requires { Batching catalog.now motifs.now.blocks.now held.now found.now cache.old work hits.old }
    ensures { (cache.new
        ≡ (batch_to embeds catalog.now motifs.now.blocks.now work (block_count motifs.now.blocks.now)
        (batch_state cache.old hits.old)).cache)
        × (hits.new
        ≡ (batch_to embeds catalog.now motifs.now.blocks.now work (block_count motifs.now.blocks.now)
        (batch_state cache.old hits.old)).hits)
        × (result ≡ tab (block_count motifs.now.blocks.now)
        (λ t. count_of (query_at embeds catalog.now motifs.now.blocks.now work (batch_state cache.old hits.old) t).answer)
        ++ drop (block_count motifs.now.blocks.now) (replicate most_motifs 0)) }
{
    let n = layout::block_count(catalog);
    let mut counts = [0usize; calls::MOST_MOTIFS];
    // By index: each turn writes the count at t and the part of the hits that begins at n * t.
    for t in 0..motifs.count() {
        let a = n * t;
        let e = a + n;
        counts[t] = answer_motif(catalog, cache, motifs, t, held, &found[t], &mut hits[a..e]);
    }
    counts
}
