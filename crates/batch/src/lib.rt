// The call batch: 1 to 16 motifs together. Each molecule that one of their queries has to search is decoded once for all motifs.
#![tactic(auto)]

mod answer;
mod plan;
mod rules;
mod scan;

ghost use Rattle.std.specs.Prelude.{◌≡◌, length};
ghost use Rattle.refusals.specs.Rules.{WorkKept};
ghost use Rattle.embedding.specs.Longest.{embeds};
ghost use Rattle.calls.specs.Statements.{AllSound};
ghost use Rattle.calls.specs.Batch.{batch_verdict, batched, not_batched, batch_outcome};
ghost use Rattle.batch.specs.Steps.{Begun, Found};

use block::layout;
pub use calls::{BatchRead, Batched};
use motifs::Motifs;
use refusals::Refusal;

// A map for each motif.
type Maps = [[u8; layout::MAP_SIZE]; calls::MOST_MOTIFS];

// What the queries have to search, and what of it are hits: the held numbers, for each motif the numbers to search and the hits among them, and how many
// molecules were read. Nobody copies these arrays, so it is no Clone.
#[derive(Drop)]
struct Findings {
    held: [u8; layout::MAP_SIZE],
    todo: Maps,
    found: Maps,
    read: usize,
}

// The plan is made, and every molecule that it asks for is read.
fn find(catalog: &[u8], cache: &[u8], motifs: &Motifs, work: &mut [u16]) -> Findings
    requires { Begun catalog.now cache.now motifs.now.blocks.now (length work.old) }
    ensures { Found catalog.now cache.now motifs.now.blocks.now result.held result.todo result.found result.read }
{
    let mut held = [0u8; layout::MAP_SIZE];
    search::maps::fill_held(catalog, &mut held);
    let todo = plan::plan(motifs, &held, cache);
    let (found, read) = scan::search_all(catalog, motifs, &todo, work);
    Findings {
        held,
        todo,
        found,
        read,
    }
}

// The answer of an accepted batch on a clean cache. The motifs are unpacked here.
fn answer_accepted(
    catalog: &[u8],
    cache: &mut [u8],
    motifs: &[u8],
    work: &mut [u16],
    hits: &mut [u16],
) -> Batched
    requires { (batch_verdict catalog.now cache.old motifs.now (length work.old) (length hits.old) ≡ Ok tt) × AllSound cache.old }
    ensures { batched result cache.new hits.new
        ≡ batch_outcome embeds catalog.now motifs.now (length work.old) cache.old hits.old }
{
    let entries = work.len();
    let motifs = Motifs::new(motifs);
    let x = find(catalog, cache, &motifs, work);
    let counts = answer::answer_all(catalog, cache, &motifs, entries, &x.held, &x.found, hits);
    let searched = plan::count_all(&x.todo, motifs.count(), layout::block_count(catalog));
    Batched {
        read: Ok(x.read),
        counts,
        searched,
    }
}

// The answer of a refused batch.
fn refused(x: Refusal) -> Batched
    ensures { result ≡ not_batched x }
{
    Batched {
        read: Err(x),
        counts: [0usize; calls::MOST_MOTIFS],
        searched: [0usize; calls::MOST_MOTIFS],
    }
}

// The call batch: the queries of the motifs of the buffer, in their order. Motif t has its hits, rising, from entry t * B of `hits`, B being the number of
// catalog blocks; every other entry keeps its value. What an accepted batch leaves in `work` is free.
pub fn batch(
    catalog: &[u8],
    cache: &mut [u8],
    motifs: &[u8],
    work: &mut [u16],
    hits: &mut [u16],
) -> Batched
    ensures { (batched result cache.new hits.new
        ≡ batch_outcome embeds catalog.now motifs.now (length work.old) cache.old hits.old)
        × WorkKept (batch_verdict catalog.now cache.old motifs.now (length work.old) (length hits.old))
        work.old work.new }
{
    // By no `?`: a refused batch answers arrays too, as the C interface has them beside the number read.
    if let Err(r) = rules::judge_batch(catalog, cache, motifs, work.len(), hits.len()) {
        return refused(r);
    }
    buffer::clean_all(cache);
    answer_accepted(catalog, cache, motifs, work, hits)
}
