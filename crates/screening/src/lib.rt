// Screening: from the bytes of an input to the text that the screen program prints.
#![tactic(auto)]

mod text;

ghost use Rattle.std.specs.Prelude.{◌≡◌, true, false, ◌&&◌, ◌≤◌, length};
ghost use Rattle.block.specs.Motif.{holds_motif, motif_handed_in};
ghost use Rattle.block.specs.Content.{block_bases, empty_block, block_size};
ghost use Rattle.refusals.specs.Rules.{WorkKept, number_of, number_of_side};
ghost use Rattle.calls.specs.Calls.{queried, query_verdict, query_outcome};
ghost use Rattle.screening.specs.Text.{refused_text, most_output, TextPut};
ghost use Rattle.screening.specs.Screen.{is_input, first_block, catalog_in, answer_text, AnswerFits, is_asked, screen_output, has_room, screened, cache_left};
ghost use Rattle.screening.specs.Screen.{hits_left, screen_outcome, screen_verdict};
ghost use Rattle.embedding.specs.Longest.{embeds};

use block::layout;
use catalog::Queried;
use refusals::Refusal;
use strand::Strand;

// The most bytes of an output, the entries of work that any motif's query asks for, the most catalog blocks of an input, and its most blocks
// with the motif's (specs/Text and specs/Screen have the same numbers).
const MOST_OUTPUT: usize = 202;

const SCREEN_WORK: usize = 9024;

const MOST_SCREENED: usize = 64;

const MOST_INPUT_BLOCKS: usize = 65;

// Whether buffers of these lengths are long enough for any input; the cache is one block.
fn has_room(out: usize, cache: usize, work: usize, hits: usize) -> bool
    ensures { result ≡ has_room out cache work hits }
{
    if out < MOST_OUTPUT {
        return false;
    }
    if cache != layout::BLOCK_SIZE {
        return false;
    }
    if work < SCREEN_WORK {
        return false;
    }
    MOST_SCREENED <= hits
}

// Whether the input is 2 to 65 whole blocks.
fn is_input(input: &[u8]) -> bool
    ensures { result ≡ is_input input.now }
{
    let n = input.len();
    if n % layout::BLOCK_SIZE != 0 {
        return false;
    }
    if n / layout::BLOCK_SIZE < 2 {
        return false;
    }
    n / layout::BLOCK_SIZE <= MOST_INPUT_BLOCKS
}

// The query of the first block's motif over the blocks behind it. The motif is read into the borrowed bases and mates.
fn ask_lent(
    input: &[u8],
    cache: &mut [u8],
    work: &mut [u16],
    hits: &mut [u16],
    bases: &mut [u8],
    mates: &mut [u16],
) -> Queried
    requires input_whole { is_input input.now ≡ true }
    requires motif_held { holds_motif (first_block input.now) ≡ true }
    requires block_bases_in_bounds { (block_bases ≤ length bases.old) × (block_bases ≤ length mates.old) }
    ensures { (queried result cache.new hits.new
        ≡ query_outcome embeds (catalog_in input.now) cache.old (motif_handed_in (first_block input.now)) (length work.old) hits.old)
        × WorkKept (query_verdict (catalog_in input.now) cache.old (motif_handed_in (first_block input.now)) (length work.old) (length hits.old))
        work.old work.new }
{
    let decoded = codec::molecule::decode_motif(&input[..layout::BLOCK_SIZE], bases, mates);
    let n = decoded.unwrap();
    let motif = Strand {
        bases: &bases[..n],
        mates: &mates[..n],
    };
    catalog::query(&input[layout::BLOCK_SIZE..], cache, &motif, work, hits)
}

// The same with a zeroed cache, and room for the motif.
fn ask(input: &[u8], cache: &mut [u8], work: &mut [u16], hits: &mut [u16]) -> Queried
    requires input_whole { is_input input.now ≡ true }
    requires motif_held { holds_motif (first_block input.now) ≡ true }
    requires cache_len { length cache.old ≡ block_size }
    ensures { (queried result cache.new hits.new
        ≡ query_outcome embeds (catalog_in input.now) empty_block (motif_handed_in (first_block input.now)) (length work.old) hits.old)
        × WorkKept (screen_verdict input.now (length work.old) (length hits.old)) work.old work.new }
{
    let mut bases = [0u8; layout::BLOCK_BASES];
    let mut mates = [0u16; layout::BLOCK_BASES];
    cache.fill(0);
    ask_lent(input, cache, work, hits, &mut bases, &mut mates)
}

// The text of any refusal.
fn put_refusal(out: &mut [u8], refusal: Refusal) -> usize
    requires { most_output ≤ length out.old }
    ensures { TextPut (refused_text (number_of refusal.rule) (number_of_side refusal.side) refusal.place) out.old out.new 0 result }
{
    text::put_refused(
        out,
        refusal.rule.number(),
        refusal.side.number(),
        refusal.place,
    )
}

// The text of a query's answer.
fn put_answer(out: &mut [u8], answer: Queried, hits: &[u16]) -> usize
    requires answer_fits { AnswerFits answer hits.now most_output }
    requires most_output_in_bounds { most_output ≤ length out.old }
    ensures { TextPut (answer_text answer hits.now) out.old out.new 0 result }
{
    match answer {
        Err(x) => put_refusal(out, x),
        Ok(found) => text::put_hits(out, found.count, found.searched, hits),
    }
}

// The output of an input, where there is room.
fn write_output(
    input: &[u8],
    out: &mut [u8],
    cache: &mut [u8],
    work: &mut [u16],
    hits: &mut [u16],
) -> usize
    requires { has_room (length out.old) (length cache.old) (length work.old) (length hits.old) ≡ true }
    ensures text_put { TextPut (screen_output embeds input.now) out.old out.new 0 result }
    ensures buffers_after { (cache.new ≡ cache_left embeds input.now cache.old (length work.old) hits.old)
        × (hits.new ≡ hits_left embeds input.now (length work.old) hits.old)
        × (is_asked input.now ≡ true → WorkKept (screen_verdict input.now (length work.old) (length hits.old)) work.old work.new)
        × (is_asked input.now ≡ false → work.new ≡ work.old) }
{
    if !is_input(input) {
        return text::put_text(out, b"bad length\n");
    }
    if !block::sound::holds_motif(&input[..layout::BLOCK_SIZE]) {
        return text::put_text(out, b"bad motif\n");
    }
    let answer = ask(input, cache, work, hits);
    put_answer(out, answer, hits)
}

// From the whole input to the whole output. The answer is how many bytes of output were written, or None: a buffer is too short or the cache is not one
// block, and nothing is written in any. The cache, the work slice and the hits are scratch: their contents show neither in the answer nor in the output.
// Where a query is asked, they are as the query leaves them, and elsewhere as they were. No output is longer than most_output (`OutputSays`).
pub fn screen(
    input: &[u8],
    out: &mut [u8],
    cache: &mut [u8],
    work: &mut [u16],
    hits: &mut [u16],
) -> Option<usize>
    ensures outcome { screened result out.new cache.new hits.new ≡ screen_outcome embeds input.now out.old cache.old (length work.old) hits.old }
    ensures work_kept { ((has_room (length out.old) (length cache.old) (length work.old) (length hits.old) && is_asked input.now) ≡ true
        → WorkKept (screen_verdict input.now (length work.old) (length hits.old)) work.old work.new)
        × ((has_room (length out.old) (length cache.old) (length work.old) (length hits.old) && is_asked input.now) ≡ false
        → work.new ≡ work.old) }
{
    if !has_room(out.len(), cache.len(), work.len(), hits.len()) {
        return None;
    }
    Some(write_output(input, out, cache, work, hits))
}
