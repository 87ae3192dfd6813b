// The call window: the shortest window of a molecule that still carries a motif.
#![tactic(auto)]

mod search;

ghost use Rattle.std.specs.Prelude.{◌≡◌, length as len};
ghost use Rattle.refusals.specs.Rules.{WorkKept};
ghost use Rattle.strand.specs.Lent.{on_pair};
ghost use Rattle.matcher.specs.Answers.{length_verdict};
ghost use Rattle.window.specs.Answers.{window_answer};

use refusals::Refusal;
pub use search::Window;
use strand::{Fold, Strand};

// What window finds: the tightest window that carries the motif, if one does, and the fold of the molecule.
#[derive(Clone, Copy, Debug, PartialEq, Eq)]
pub struct Tightest {
    pub window: Option<Window>,
    pub fold: Fold,
}

// The answer of window: the tightest window, or a refusal.
pub type Windowed = Result<Tightest, Refusal>;

// The call window: of the windows of the molecule that carry an embedding of the motif the shortest, of these the first; and the fold of the molecule.
//
// Cost (counted, not proved): one walk over a window costs no more than the call length. With four letters 1 to 204 walks were counted on pairs of 4,096 and
// 512 bases. Where a molecule repeats itself it is about one walk for each base: 4,149 on a comb of one letter. The most there can be is some 2 n log n.
pub fn window(motif: &Strand, molecule: &Strand, work: &mut [u16]) -> Windowed
    ensures { (result ≡ on_pair window_answer motif.now molecule.now (len work.old))
        × WorkKept (on_pair length_verdict motif.now molecule.now (len work.old)) work.old work.new }
{
    matcher::judge_length(motif, molecule, work.len())?;
    let fold = strand::depth::fold_of(molecule.mates);
    let window = search::tightest(motif, molecule, work);
    Ok(Tightest { window, fold })
}
