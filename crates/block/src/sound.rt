// The soundness test of a block: one walk over its content, which also gathers the sum that the checksum must be.
ghost use Rattle.std.specs.Prelude.{◌≡◌, ◌&&◌, ◌+◌, ◌*◌, ◌≤◌, ◌<◌, length, drop};
ghost use Rattle.std.specs.Bool.{then_some};
ghost use Rattle.strand.specs.Strands.{is_nested};
ghost use Rattle.octets.specs.Octets.{words};
ghost use Rattle.block.specs.Content.{block_size, checksum_at, sum_to};
ghost use Rattle.block.specs.Inner.{kind_of};
ghost use Rattle.block.specs.Block.{block_of, base_bytes_ok, mate_bytes_ok, content_ok, sound_strand, sound_molecule, sound_entry};
ghost use Rattle.block.specs.Motif.{sound_motif, holds_motif};

use crate::checksum::checksum_in;
use crate::kind::{self, Kind};
use crate::{layout, walk};

// The bytes up to where the mates begin, of n bases: the kind's own up to `blank`, zeros up to the bases, letters of the side, zeros in unused places.
fn base_bytes(s: &[u8], kind: &Kind, n: usize) -> Option<u32>
    requires { (length s.now ≡ block_size) × (n ≤ kind.now.most) }
    ensures { result ≡ then_some (base_bytes_ok kind.now.side kind.now.blank kind.now.start kind.now.most n s.now)
        (sum_to s.now (kind.now.start + kind.now.most)) }
{
    let e = kind.start + n;
    let head = walk::zeros(s, kind.blank, kind.start, walk::gather(s, 0, kind.blank, 0))?;
    let bases = walk::bases(s, kind.side, kind.start, e, head).ok()?;
    walk::zeros(s, e, kind.start + kind.most, bases)
}

// The bytes of n mates, which follow the places for bases: nested mates, zeros in unused places.
fn mate_bytes(s: &[u8], kind: &Kind, n: usize, sum: u32) -> Option<u32>
    requires s_len { (length s.now ≡ block_size) × (n ≤ kind.now.most) }
    requires sum_value { sum ≡ sum_to s.now (kind.now.start + kind.now.most) }
    ensures { let at = kind.now.start + kind.now.most in
        result ≡ then_some (mate_bytes_ok at kind.now.most n s.now && is_nested (words n (drop at s.now))) (sum_to s.now (at + 2 * kind.now.most)) }
{
    let at = kind.start + kind.most;
    let mates = walk::mates(s, at, n, sum).ok()?;
    walk::zeros(s, at + 2 * n, at + 2 * kind.most, mates)
}

// The content of a block of the kind, up to where its mates end.
fn content(s: &[u8], kind: &Kind) -> Option<u32>
    requires { length s.now ≡ block_size }
    ensures { result ≡ then_some (content_ok (kind_of kind.now) s.now) (sum_to s.now (kind.now.start + 3 * kind.now.most)) }
{
    let k = s[0];
    if k != kind.mark {
        return None;
    }
    let n = s[1] as usize;
    if n < kind.least {
        return None;
    }
    if kind.most < n {
        return None;
    }
    let bases = base_bytes(s, kind, n)?;
    mate_bytes(s, kind, n, bases)
}

// Whether s is a sound block of strands of the kind, whose mates end where the checksum stands. Byte 0 of such a block is not 0, so a block that begins
// with 0 is sound exactly when it is empty.
fn sound_strand(s: &[u8], kind: &Kind) -> bool
    requires { (0 < kind.now.mark) × (kind.now.start + 3 * kind.now.most ≡ checksum_at) }
    ensures { result ≡ sound_strand (kind_of kind.now) s.now }
{
    if s.len() != layout::BLOCK_SIZE {
        return false;
    }
    if s[0] == 0 {
        return octets::scan::all_zero(s);
    }
    let Some(sum) = content(s, kind) else {
        return false;
    };
    sum == checksum_in(s)
}

// Whether s is a sound block of a catalog.
pub fn sound_molecule(s: &[u8]) -> bool
    ensures { result ≡ sound_molecule s.now }
{
    sound_strand(s, &kind::MOLECULE)
}

// Whether s is sound as a block handed in as a motif.
pub fn sound_motif(s: &[u8]) -> bool
    ensures { result ≡ sound_motif s.now }
{
    sound_strand(s, &kind::MOTIF)
}

// Whether s hands a motif in: it is sound, and not a block of zeros.
pub fn holds_motif(s: &[u8]) -> bool
    ensures { result ≡ holds_motif s.now }
{
    if !sound_motif(s) {
        return false;
    }
    !octets::scan::all_zero(s)
}

// Whether s is a sound block of a cache.
pub fn sound_entry(s: &[u8]) -> bool
    ensures { result ≡ sound_entry s.now }
{
    if s.len() != layout::BLOCK_SIZE {
        return false;
    }
    if s[0] == 0 {
        return octets::scan::all_zero(s);
    }
    let Some(content) = content(s, &kind::ENTRY) else {
        return false;
    };
    let Ok(sum) = walk::maps(s, content) else {
        return false;
    };
    sum == checksum_in(s)
}

// Whether block d of a catalog is sound; false where there is no such block.
pub fn sound_at(buf: &[u8], d: usize) -> bool
    ensures { result ≡ sound_molecule (block_of d buf.now) }
{
    if d < layout::block_count(buf) {
        return sound_molecule(layout::block_at(buf, d));
    }
    false
}
