// What the test programs of length, show and window share: lines about a motif and a molecule, and the answers of the calls on them. From columns 2 and
// 27 such a line has the two strands (see `strands`), or from column 2 the name of a group.
use super::answer::{Fold, Refusal};
use super::input::field;
use super::strands::Strand;
use std::alloc::{AllocError, Global};
use std::{fmt, io};

// The bytes of a line, with its end and without.
pub const LINE: usize = 112;

pub const TEXT: usize = 111;

// More entries of work than any pair asks for.
pub const WORK_ROOM: usize = 294980;

// What slices are filled with before a call that may write them; no position.
pub const FILL: u16 = 51966;

#[derive(Debug, Drop)]
pub struct Pair {
    pub motif: Strand,
    pub molecule: Strand,
}

// The pair of a line, in a round of those that it stands for.
pub fn make(alloc: Global, line: &[u8], round: usize) -> Result<Pair, AllocError> {
    Ok(Pair {
        motif: Strand::of(alloc, field(line, 2..26), round)?,
        molecule: Strand::of(alloc, field(line, 27..51), round)?,
    })
}

// The name of a group.
pub fn name(line: &[u8]) -> &[u8] {
    field(line, 2..48)
}

// What a call found, and the fold of the molecule.
#[derive(Clone, Copy, Debug, PartialEq, Eq)]
pub struct Found<T> {
    pub found: T,
    pub fold: Fold,
}

pub type Told<T> = Result<Found<T>, Refusal>;

// What is to be found, or the refusal; where the fold is not known, any is right.
#[derive(Clone, Copy, Debug, PartialEq, Eq)]
pub struct Wanted<T> {
    pub found: Result<T, Refusal>,
    pub fold: Option<Fold>,
}

impl<T: Copy + PartialEq> Wanted<T> {
    pub fn is(&self, told: Told<T>) -> bool {
        match (told, self.found) {
            (Ok(told), Ok(found)) => {
                told.found == found && self.fold.is_none_or(|fold| told.fold == fold)
            }
            (Err(refusal), Err(wanted)) => refusal == wanted,
            _ => false,
        }
    }
}

// A count; past a million it goes on with its last six digits.
#[derive(Clone, Copy, Debug, Default)]
pub struct Count(usize);

impl Count {
    // A call adds to each count, if only 0.
    pub fn add(&mut self, n: usize) {
        self.0 = self.0 % 1000000 + n % 10000;
    }
}

impl fmt::Display for Count {
    fn fmt<W: fmt::Write>(&self, f: &mut fmt::Formatter<W>) -> fmt::Result {
        write!(f, "{}", self.0)
    }
}

// Tells a wrong call: its line, then in digits what it found or its refusal, and the fold, 0 after a refusal. None is a call that was not made, as its
// line asks for more than there is room; its number is none that a call can answer.
pub fn tell<P: Print, T: Drop + fmt::Display>(
    out: &P,
    line: &[u8],
    told: Option<Told<T>>,
) -> io::Result<()> {
    out.write_all(b"wrong: ")?;
    out.write_all(line)?;
    match told {
        Some(Ok(Found { found, fold })) => {
            println!(out; " gave {found} 1{:04}{:04}", fold.arcs, fold.depth)
        }
        Some(Err(refusal)) => println!(out;
            " gave {}{}{:04} 0",
            refusal.row, refusal.side, refusal.place
        ),
        None => println!(out; " gave 10000000000 0"),
    }
}
