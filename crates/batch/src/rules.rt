// Which refusal of a batch applies first. Nothing is written here.
ghost use Rattle.std.specs.Prelude.{◌≡◌};
ghost use Rattle.calls.specs.Batch.{batch_verdict};

use block::layout;
use refusals::{Rule, Side, Verdict, refuse};

// `work` and `room` are the lengths of the work and the hit slice.
pub(crate) fn judge_batch(
    catalog: &[u8],
    cache: &[u8],
    motifs: &[u8],
    work: usize,
    room: usize,
) -> Verdict
    ensures { result ≡ batch_verdict catalog.now cache.now motifs.now work room }
{
    judge::judge_buffers(catalog, cache)?;
    motifs::judge(motifs)?;
    let k = layout::block_count(motifs);
    if room < k * layout::block_count(catalog) {
        return refuse(Rule::WrongSlice, Side::Neither, 0);
    }
    let longest = motifs::longest(motifs);
    if work < 64 * (longest + 1) + 8 * layout::BLOCK_BASES {
        return refuse(Rule::WorkTooShort, Side::Neither, 0);
    }
    Ok(())
}
