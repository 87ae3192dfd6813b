// Strands: bases and mates, lent as two slices. The check of a strand, with refusals 1 to 7; its fold.
#![tactic(auto)]

pub mod depth;
pub mod key;
pub mod levels;
mod nesting;

ghost use Rattle.std.specs.Prelude.{◌≡◌};
ghost use Rattle.strand.specs.Strands.{strand_verdict, check_answer, pair_verdict};
ghost use Rattle.strand.specs.Lent.{on_strand, on_pair};

use refusals::{Refusal, Rule, Side, Verdict, refuse};

// The least lengths of a motif and of a molecule, and the greatest length in the direct calls (specs/Strands has the same names).
pub const LEAST_MOTIF: usize = 0;

pub const LEAST_MOLECULE: usize = 1;

pub const GREATEST_LENGTH: usize = 4096;

// A molecule or a motif, lent: bases as bytes, and for each base its mate. It promises nothing of them, not that they are as many: rule 1 is the test of that.
#[derive(Clone, Copy)]
pub struct Strand<'a> {
    pub bases: &'a [u8],
    pub mates: &'a [u16],
}

// The fold of a strand: the number of its arcs, and its depth, which is the largest number of arcs of which each lies inside the one before, and 0 without
// arcs.
#[derive(Clone, Copy, Debug, PartialEq, Eq)]
pub struct Fold {
    pub arcs: usize,
    pub depth: usize,
}

// The answer of check: the fold of the molecule, which is nested, or a refusal.
pub type Checked = Result<Fold, Refusal>;

// The check of a strand of one side, its length from least to greatest. The place of a crossing, which takes quadratic time, is looked for
// only where there is one.
pub fn check_strand(strand: &Strand, side: Side, least: usize, greatest: usize) -> Verdict
    ensures { result ≡ on_strand (strand_verdict side least greatest) strand.now }
{
    let Strand { bases, mates } = *strand;
    if mates.len() != bases.len() {
        return refuse(Rule::UnequalLengths, side, 0);
    }
    if bases.len() < least {
        return refuse(Rule::NoBases, side, 0);
    }
    if greatest < bases.len() {
        return refuse(Rule::TooLong, side, 0);
    }
    let letter = letters::lowest_non_letter(side, bases);
    if letter < bases.len() {
        return refuse(Rule::BadLetter, side, letter);
    }
    let outside = nesting::lowest_outside(mates);
    if outside < mates.len() {
        return refuse(Rule::BadMate, side, outside);
    }
    let single = nesting::lowest_not_mutual(mates);
    if single < mates.len() {
        return refuse(Rule::MatesNotMutual, side, single);
    }
    if nesting::arcs_close(mates) {
        return Ok(());
    }
    refuse(Rule::ArcsCross, side, nesting::lowest_crossed(mates))
}

// The call check: whether a molecule is accepted, and its fold.
pub fn check(molecule: &Strand) -> Checked
    ensures { result ≡ on_strand check_answer molecule.now }
{
    check_strand(molecule, Side::Molecule, LEAST_MOLECULE, GREATEST_LENGTH)?;
    Ok(depth::fold_of(molecule.mates))
}

// What length, show, window and verify refuse first: the motif, then the molecule.
pub fn check_pair(motif: &Strand, molecule: &Strand) -> Verdict
    ensures { result ≡ on_pair pair_verdict motif.now molecule.now }
{
    check_strand(motif, Side::Motif, LEAST_MOTIF, GREATEST_LENGTH)?;
    check_strand(molecule, Side::Molecule, LEAST_MOLECULE, GREATEST_LENGTH)
}
