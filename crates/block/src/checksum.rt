// The checksum of a block.
ghost use Rattle.std.specs.Prelude.{◌≡◌, ◌≤◌, length};
ghost use Rattle.octets.specs.Octets.{word32};
ghost use Rattle.block.specs.Content.{block_size, checksum_at};
ghost use Rattle.block.specs.Inner.{rechecked_whole};

use crate::{layout, walk};

// The checksum that a block has, in bytes 508 to 511.
#[tactic(auto, unfolding(octets::specs::Octets::word32))]
pub(crate) fn checksum_in(s: &[u8]) -> u32
    requires { block_size ≤ length s.now }
    ensures { result ≡ word32 s.now checksum_at }
{
    u32::from_le_bytes([
        s[layout::CHECKSUM_AT],
        s[layout::CHECKSUM_AT + 1],
        s[layout::CHECKSUM_AT + 2],
        s[layout::CHECKSUM_AT + 3],
    ])
}

// Write the checksum into bytes 508 to 511; nothing into less than a block.
pub fn put_checksum(s: &mut [u8])
    ensures { s.new ≡ rechecked_whole s.old }
{
    if s.len() < layout::BLOCK_SIZE {
        return;
    }
    let x = walk::gather(s, 0, layout::CHECKSUM_AT, 0);
    s[layout::CHECKSUM_AT..layout::BLOCK_SIZE].copy_from_slice(&x.to_le_bytes());
}
