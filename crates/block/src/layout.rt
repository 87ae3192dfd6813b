// Where blocks stand in a buffer, where things stand in a block, and how many there is room for (specs/Content has the same numbers).
ghost use Rattle.std.specs.Prelude.{◌≡◌, ◌<◌};
ghost use Rattle.block.specs.Block.{block_of, block_count};

pub const BLOCK_SIZE: usize = 512;

pub const CHECKSUM_AT: usize = 508;

// Molecule block: byte 0, where its zero bytes and its bases begin, and its places for bases, which its mates follow.
pub const MOLECULE_MARK: u8 = 1;

pub const MOLECULE_BLANK: usize = 2;

pub const MOLECULE_START: usize = 28;

pub const BLOCK_BASES: usize = 160;

// A block handed in as a motif is laid out alike, with as many places.
pub const MOTIF_MARK: u8 = 1;

pub const MOTIF_BLANK: usize = 2;

pub const MOTIF_START: usize = 28;

// Cache entry: the same, where its mates begin, and its two maps.
pub const ENTRY_MARK: u8 = 2;

pub const ENTRY_BLANK: usize = 2;

pub const ENTRY_START: usize = 20;

pub const ENTRY_MATES_AT: usize = 140;

pub const ENTRY_BASES: usize = 120;

pub const SEARCHED_AT: usize = 380;

pub const HIT_AT: usize = 444;

pub const MAP_SIZE: usize = 64;

// The number of blocks of a buffer.
pub fn block_count(buf: &[u8]) -> usize
    ensures { result ≡ block_count buf.now }
{
    buf.len() / BLOCK_SIZE
}

// Block d of a buffer. Callers name a block that is there.
pub fn block_at(buf: &[u8], d: usize) -> &[u8]
    requires { d < block_count buf.now }
    ensures { result.now ≡ block_of d buf.now }
{
    let a = BLOCK_SIZE * d;
    let e = a + BLOCK_SIZE;
    &buf[a..e]
}
