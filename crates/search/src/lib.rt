// The search of a query over the blocks of a catalog. Query meets what `answer` asks: its judge has let catalog, motif, work and hits pass (`Judged`), and the
// cache is clean.
#![tactic(auto)]

pub mod maps;
mod scan;

ghost use Rattle.std.specs.Prelude.{◌≡◌, true, ◌++◌, ◌<◌, ◌≤◌, ◌%◌, length, drop};
ghost use Rattle.lists.specs.Vocabulary.{select};
ghost use Rattle.strand.specs.Lent.{lent, on_strand};
ghost use Rattle.octets.specs.Octets.{map_bits, map_bit};
ghost use Rattle.block.specs.Block.{block_count};
ghost use Rattle.calls.specs.Buffers.{most_motif_bases, slot_of};
ghost use Rattle.calls.specs.Calls.{queried};
ghost use Rattle.calls.specs.Statements.{AllSound};
ghost use Rattle.search.specs.Search.{Judged, answered};

use block::layout;
use calls::{Hits, Queried};
use maps::Maps;
use scan::Searcher;
use strand::Strand;

// The slot of a motif in a cache of n blocks: its key mod n.
pub fn slot(motif: &Strand, n: usize) -> usize
    requires { (length motif.now.bases.now ≤ most_motif_bases) × (length motif.now.mates.now ≡ length motif.now.bases.now) × (1 ≤ n) }
    ensures { (result ≡ slot_of n (lent motif.now)) × (result < n) }
{
    strand::key::key(motif) % n
}

// The numbers below n of the map, rising, at the start of `hits`; how many there are.
pub fn list_hits(found: &[u8], n: usize, hits: &mut [u16]) -> usize
    requires { (n ≤ length hits.old) × (n ≤ map_bits) }
    ensures { (result ≡ length (select n (map_bit found.now 0)))
        × (hits.new ≡ select n (map_bit found.now 0) ++ drop result hits.old) }
{
    let mut count = 0;
    for d in 0..n {
        if octets::bits::test(found, 0, d) {
            hits[count] = d as u16;
            count += 1;
        }
    }
    count
}

// The answer of an accepted query, from the entry in the motif's slot of the cache, which is then written anew. The maps and the tables of the call are made
// here.
pub fn answer(
    catalog: &[u8],
    cache: &mut [u8],
    motif: &Strand,
    work: &mut [u16],
    hits: &mut [u16],
) -> Queried
    requires { on_strand (Judged catalog.now) motif.now (length work.old) × (1 ≤ block_count cache.old) × AllSound cache.old
        × (block_count catalog.now ≤ length hits.old) }
    ensures { queried result cache.new hits.new
        ≡ answered catalog.now cache.old (lent motif.now) hits.old }
{
    let s = slot(motif, layout::block_count(cache));
    let mut maps = Maps::new(catalog, layout::block_at(cache, s), motif);
    let searched = Searcher::new(*motif, work).search_all(catalog, &maps.todo, &mut maps.found);
    let count = list_hits(&maps.found, layout::block_count(catalog), hits);
    buffer::put_entry(cache, s, motif, &maps.held, &maps.found);
    Ok(Hits { count, searched })
}
