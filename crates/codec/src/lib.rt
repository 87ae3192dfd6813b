// Blocks written and read: the parts of a block, molecule blocks, and cache entries.
#![tactic(auto)]

pub mod entry;
pub mod molecule;
mod parts;
