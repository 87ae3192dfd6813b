// The 512-byte blocks of catalog and cache: what a block holds, its checksum, and when it is sound.
#![tactic(auto)]

pub mod checksum;
pub mod kind;
pub mod layout;
pub mod sound;
mod walk;
