// The matcher: the longest closed prefix of a motif that embeds in a molecule, and an embedding of it.
#![tactic(auto)]

ghost use Rattle.std.specs.Prelude.{◌≡◌, length as len};
ghost use Rattle.refusals.specs.Rules.{WorkKept};
ghost use Rattle.strand.specs.Lent.{on_pair};
ghost use Rattle.matcher.specs.Answers.{length_verdict, length_answer, show_verdict, show_answer, PlacesShown};

use refusals::{Refusal, Rule, Side, Verdict};
use strand::{Fold, Strand};

// What length and show find: the length of the longest closed prefix that embeds, and the fold of the molecule.
#[derive(Clone, Copy, Debug, PartialEq, Eq)]
pub struct Prefix {
    pub length: usize,
    pub fold: Fold,
}

// The answer of length and show: the prefix, or a refusal.
pub type Matched = Result<Prefix, Refusal>;

// The refusals of length: motif, molecule, then 8.
pub fn judge_length(motif: &Strand, molecule: &Strand, work: usize) -> Verdict
    ensures { result ≡ on_pair length_verdict motif.now molecule.now work }
{
    strand::check_pair(motif, molecule)?;
    if work < 64 * (motif.bases.len() + 1) + 8 * molecule.bases.len() {
        return refusals::refuse(Rule::WorkTooShort, Side::Neither, 0);
    }
    Ok(())
}

// The refusals of show: motif, molecule, 9, then 8.
fn judge_show(motif: &Strand, molecule: &Strand, places: usize, work: usize) -> Verdict
    ensures { result ≡ on_pair show_verdict motif.now molecule.now places work }
{
    strand::check_pair(motif, molecule)?;
    if places < motif.bases.len() {
        return refusals::refuse(Rule::WrongSlice, Side::Neither, 0);
    }
    if work < 64 * (motif.bases.len() + 1) + 8 * molecule.bases.len() {
        return refusals::refuse(Rule::WorkTooShort, Side::Neither, 0);
    }
    Ok(())
}

// The call length: the length of the longest closed prefix of the motif that embeds in the molecule, and the fold of the molecule.
pub fn length(motif: &Strand, molecule: &Strand, work: &mut [u16]) -> Matched
    ensures { (result ≡ on_pair length_answer motif.now molecule.now (len work.old))
        × WorkKept (on_pair length_verdict motif.now molecule.now (len work.old)) work.old work.new }
{
    judge_length(motif, molecule, work.len())?;
    let fold = strand::depth::fold_of(molecule.mates);
    let length = walk::prefix_length(motif, molecule, work);
    Ok(Prefix { length, fold })
}

// The call show: the same, and in the first so many places an embedding of that prefix.
pub fn show(motif: &Strand, molecule: &Strand, places: &mut [u16], work: &mut [u16]) -> Matched
    ensures { (result ≡ on_pair show_answer motif.now molecule.now (len places.old) (len work.old))
        × on_pair (PlacesShown result) motif.now molecule.now places.old places.new
        × WorkKept (on_pair show_verdict motif.now molecule.now (len places.old) (len work.old)) work.old work.new }
{
    judge_show(motif, molecule, places.len(), work.len())?;
    let fold = strand::depth::fold_of(molecule.mates);
    let length = trace::place_all(motif, molecule, places, work);
    Ok(Prefix { length, fold })
}
