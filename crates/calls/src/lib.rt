// What add, remove, query and batch answer and leave, for all inputs: the answers here, all else in specs/. Crates catalog and batch have the code.
#![tactic(auto)]

use refusals::Refusal;
use strand::Fold;

// The answer of add: the molecule is stored, and this is its fold.
pub type Added = Result<Fold, Refusal>;

// The answer of remove.
pub type Removed = Result<(), Refusal>;

// How many hits a query has, and how many molecules it had to search.
#[derive(Clone, Copy, Debug, PartialEq, Eq)]
pub struct Hits {
    pub count: usize,
    pub searched: usize,
}

// The answer of query.
pub type Queried = Result<Hits, Refusal>;

// The most motifs of a batch.
pub const MOST_MOTIFS: usize = 16;

// How many molecules a batch read, or its refusal.
pub type BatchRead = Result<usize, Refusal>;

// The answer of batch: beside the number read, for each motif how many hits, and how many molecules its query had to search; 0 where there is no motif, and
// everywhere on a refusal.
#[derive(Clone, Copy, Debug, PartialEq, Eq)]
pub struct Batched {
    pub read: BatchRead,
    pub counts: [usize; MOST_MOTIFS],
    pub searched: [usize; MOST_MOTIFS],
}
