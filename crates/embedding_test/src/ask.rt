// The call verify, its answers by the numbers of the table.
use testing::answer::{Fold, Refusal};
use testing::pairs::Pair;

// Whether the places are an embedding, and what is said of the molecule.
pub fn verify(pair: &Pair, places: &[u16]) -> Result<(bool, Fold), Refusal> {
    let Pair { motif, molecule } = pair;
    let verified = embedding::verify(&motif.lent(), &molecule.lent(), places)?;
    let fold = Fold {
        arcs: verified.fold.arcs,
        depth: verified.fold.depth,
    };
    Ok((verified.embeds, fold))
}
