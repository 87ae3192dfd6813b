// The calls of the crate strand, their answers by the numbers of the table.
use refusals::Side;
use strand::Strand;
use testing::answer::{Fold, Refusal};

// A molecule.
pub fn check(molecule: &Strand) -> Result<Fold, Refusal> {
    let fold = strand::check(molecule)?;
    Ok(Fold {
        arcs: fold.arcs,
        depth: fold.depth,
    })
}

// A motif of so many bases.
pub fn check_motif(motif: &Strand, least: usize, greatest: usize) -> Result<(), Refusal> {
    Ok(strand::check_strand(motif, Side::Motif, least, greatest)?)
}

// A motif and a molecule.
pub fn check_pair(motif: &Strand, molecule: &Strand) -> Result<(), Refusal> {
    Ok(strand::check_pair(motif, molecule)?)
}
