// Answers of calls, by the numbers of the table: what a program expects and what it got are compared as these.
use std::fmt;

// A refusal: its row, its side (0 motif, 1 molecule, 2 neither) and its place.
#[derive(Clone, Copy, Debug, PartialEq, Eq)]
pub struct Refusal {
    pub row: usize,
    pub side: usize,
    pub place: usize,
}

impl From<refusals::Refusal> for Refusal {
    fn from(r: refusals::Refusal) -> Refusal {
        Refusal {
            row: usize::from(r.rule.number()),
            side: usize::from(r.side.number()),
            place: r.place,
        }
    }
}

impl fmt::Display for Refusal {
    fn fmt<W: fmt::Write>(&self, f: &mut fmt::Formatter<W>) -> fmt::Result {
        write!(f, "refused {} {} {}", self.row, self.side, self.place)
    }
}

// What a call says of the molecule that it accepts.
#[derive(Clone, Copy, Debug, PartialEq, Eq)]
pub struct Fold {
    pub arcs: usize,
    pub depth: usize,
}

impl fmt::Display for Fold {
    fn fmt<W: fmt::Write>(&self, f: &mut fmt::Formatter<W>) -> fmt::Result {
        write!(f, "with arcs {} and depth {}", self.arcs, self.depth)
    }
}
