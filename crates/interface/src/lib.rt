// The answers of the calls as C has them (include/lakhido.h): three structs of numbers. `answers` makes them from the answers of the calls.
#![tactic(auto)]

mod answers;

// The answer of every call but window and batch. Refused: number, side and place, else zeros. Accepted: refusal 0, and in `value` and `searched` what the call
// says; `arcs` and `depth` are the molecule's in check, length, show, verify and add; else 0.
#[repr(C)]
#[derive(Clone, Copy, Debug, PartialEq, Eq)]
pub struct Answer {
    pub refusal: usize,
    pub side: usize,
    pub place: usize,
    pub value: usize,
    pub searched: usize,
    pub arcs: usize,
    pub depth: usize,
}

// The answer of window. Refused: number, side and place, else zeros. Accepted: refusal 0, the molecule's `arcs` and `depth`, and `found` 1 with `start` and
// `length` of the window, or zeros in these three where no window carries the motif.
#[repr(C)]
#[derive(Clone, Copy, Debug, PartialEq, Eq)]
pub struct WindowAnswer {
    pub refusal: usize,
    pub side: usize,
    pub place: usize,
    pub found: usize,
    pub start: usize,
    pub length: usize,
    pub arcs: usize,
    pub depth: usize,
}

// The answer of batch. Refused: number, side and place, else zeros. Accepted: refusal 0, in `read` how many molecules were read, and for each motif its count
// of hits in `counts` and how many molecules its query searched in `searched`, with 0 where there is no motif.
#[repr(C)]
#[derive(Clone, Copy, Debug, PartialEq, Eq)]
pub struct BatchAnswer {
    pub refusal: usize,
    pub side: usize,
    pub place: usize,
    pub read: usize,
    pub counts: [usize; calls::MOST_MOTIFS],
    pub searched: [usize; calls::MOST_MOTIFS],
}
