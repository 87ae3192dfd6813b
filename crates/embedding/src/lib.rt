// Embeddings of a motif in a molecule: the call verify.
#![tactic(auto)]

mod places;

ghost use Rattle.std.specs.Prelude.{◌≡◌};
ghost use Rattle.strand.specs.Lent.{on_pair};
ghost use Rattle.embedding.specs.Longest.{verify_verdict, verify_answer};

use refusals::{Refusal, Rule, Side, Verdict};
use strand::{Fold, Strand};

// The answer of verify: whether the places are an embedding, and the fold of the molecule, which a no has too.
#[derive(Clone, Copy, Debug, PartialEq, Eq)]
pub struct Verified {
    pub embeds: bool,
    pub fold: Fold,
}

// The refusals of verify: the motif, the molecule, then the number of places.
fn judge(motif: &Strand, molecule: &Strand, places: &[u16]) -> Verdict
    ensures { result ≡ on_pair verify_verdict motif.now molecule.now places.now }
{
    strand::check_pair(motif, molecule)?;
    if places.len() != motif.bases.len() {
        return refusals::refuse(Rule::WrongSlice, Side::Neither, 0);
    }
    Ok(())
}

// The call verify: whether the places are an embedding of the whole motif, and the fold of the molecule. O(m log m) after the check of the strands.
pub fn verify(motif: &Strand, molecule: &Strand, places: &[u16]) -> Result<Verified, Refusal>
    ensures { result ≡ on_pair verify_answer motif.now molecule.now places.now }
{
    judge(motif, molecule, places)?;
    let embeds = places::is_embedding(motif, molecule, places);
    let fold = strand::depth::fold_of(molecule.mates);
    Ok(Verified { embeds, fold })
}
