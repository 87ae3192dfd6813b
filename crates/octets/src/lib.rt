// Bytes: little-endian numbers, bit maps, and passes over slices.
#![tactic(auto)]

pub mod bits;
pub mod maps;
pub mod scan;
