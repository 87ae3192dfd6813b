// Refusals: an answer with rule, side and place, and the verdict of a call's rules.
#![tactic(auto)]

pub mod numbers;

ghost use Rattle.std.specs.Prelude.{◌≡◌};
ghost use Rattle.refusals.specs.Rules.{refusal, number_of, number_of_side};

// The rules of the table of refusals, with the table's numbers (specs/Rules has the same names in small letters).
#[derive(Clone, Copy, Debug, PartialEq, Eq)]
pub enum Rule {
    UnequalLengths = 1,
    NoBases = 2,
    TooLong = 3,
    BadLetter = 4,
    BadMate = 5,
    MatesNotMutual = 6,
    ArcsCross = 7,
    WorkTooShort = 8,
    WrongSlice = 9,
    NotWholeBlocks = 10,
    UnsoundBlock = 11,
    NumberTooLarge = 12,
    AlreadyHeld = 13,
    NotHeld = 14,
    BadMotifs = 15,
}

impl Rule {
    // The number of the rule in the table.
    pub fn number(self) -> u8
        ensures { result ≡ number_of self }
    {
        self as u8
    }
}

// Which of a call's two strands a refusal speaks of. The table has three; what takes a side, as `check_strand` does, takes any number as one and hands it on,
// so that there is a fourth case for the numbers that the table does not have. No call answers that case (1.13 of crate demands).
#[derive(Clone, Copy, Debug, PartialEq, Eq)]
pub enum Side {
    Motif,
    Molecule,
    Neither,
    Other(u8),
}

impl Side {
    // The number of the side, for the three the table's.
    pub fn number(self) -> u8
        ensures { result ≡ number_of_side self }
    {
        match self {
            Side::Motif => numbers::MOTIF,
            Side::Molecule => numbers::MOLECULE,
            Side::Neither => numbers::NEITHER,
            Side::Other(number) => number,
        }
    }
}

// A refused input: the rule that refuses it, the side and the place.
#[derive(Clone, Copy, Debug, PartialEq, Eq)]
pub struct Refusal {
    pub rule: Rule,
    pub side: Side,
    pub place: usize,
}

// What the rules of a call come to: accepted, or the first refusal.
pub type Verdict = Result<(), Refusal>;

// The refusal by this rule, of this side and place.
pub fn refuse(rule: Rule, side: Side, place: usize) -> Verdict
    ensures { result ≡ refusal rule side place }
{
    Err(Refusal { rule, side, place })
}
