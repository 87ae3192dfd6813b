// The rows of Bille and Gørtz: how far each start of a segment of the motif is taken by a stretch of the molecule. `tables` has what is worked out of a
// motif once, `motif` a motif with them, `row` the operations on rows.
#![tactic(auto)]

pub mod motif;
pub mod row;
pub mod tables;
