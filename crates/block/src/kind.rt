// The kinds of block of strands: a block of a catalog, a block handed in as a motif, a cache entry.
ghost use Rattle.std.specs.Prelude.{◌+◌, ◌*◌, ◌≤◌};
ghost use Rattle.block.specs.Content.{block_size, checksum_at, block_bases};

use crate::layout;
use refusals::Side;

// The numbers of a kind (specs/Content has the same): byte 0; the side whose letters its bases are; its least and its greatest length; where its zero
// bytes begin; and where its bases begin, whose places its mates follow.
#[derive(Clone, Copy)]
pub struct Kind {
    pub mark: u8,
    pub side: Side,
    pub least: usize,
    pub most: usize,
    pub blank: usize,
    pub start: usize,
    // The parts follow byte 1 and each other and end before the checksum; from where the mates begin 160 can be read.
    ghost parts: { (2 ≤ blank) × (blank ≤ start) × (most ≤ block_bases) × (start + 3 * most ≤ checksum_at)
        × (start + most + 2 * block_bases ≤ block_size) },
}

pub const MOLECULE: Kind = Kind {
    mark: layout::MOLECULE_MARK,
    side: Side::Molecule,
    least: strand::LEAST_MOLECULE,
    most: layout::BLOCK_BASES,
    blank: layout::MOLECULE_BLANK,
    start: layout::MOLECULE_START,
};

pub const MOTIF: Kind = Kind {
    mark: layout::MOTIF_MARK,
    side: Side::Motif,
    least: strand::LEAST_MOTIF,
    most: layout::BLOCK_BASES,
    blank: layout::MOTIF_BLANK,
    start: layout::MOTIF_START,
};

pub const ENTRY: Kind = Kind {
    mark: layout::ENTRY_MARK,
    side: Side::Motif,
    least: strand::LEAST_MOTIF,
    most: layout::ENTRY_BASES,
    blank: layout::ENTRY_BLANK,
    start: layout::ENTRY_START,
};
