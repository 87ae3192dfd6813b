// What the test programs share. It stands on no crate that they test: of the library it knows only the table of refusals, and how a strand is lent to a call.
#![tactic(auto)]

pub mod answer;
pub mod brute;
pub mod input;
pub mod lent;
pub mod pairs;
pub mod random;
pub mod slices;
pub mod strands;
