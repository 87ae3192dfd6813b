// The parts of a block, written into a borrowed one.
ghost use Rattle.std.specs.Prelude.{◌≡◌, ◌+◌, ◌*◌, ◌≤◌, ◌++◌, length, drop};
ghost use Rattle.strand.specs.Lent.{on_strand};
ghost use Rattle.octets.specs.Octets.{bytes_of};
ghost use Rattle.block.specs.Content.{padded, head_of, content_of};
ghost use Rattle.block.specs.Inner.{kind_of};
ghost use Rattle.codec.specs.Outcomes.{strand_fits};

use block::kind::Kind;
use block::layout;
use strand::Strand;

// The bytes of src over those of dst. By index: `copy_from_slice` of a part of any length calls `memmove`, and the archive for C asks for no other function of
// the C library than `memcpy` and `memset`.
fn put_bytes(src: &[u8], dst: &mut [u8])
    requires { length src.now ≡ length dst.old }
    ensures { dst.new ≡ src.now }
{
    for i in 0..src.len() {
        dst[i] = src[i];
    }
}

// Each part over the whole of its slice, zeros where nothing stands: the bases, or the bytes of the kind's own; byte 0, the length and the
// kind's own bytes; the mates.
fn put_padded(s: &mut [u8], src: &[u8])
    requires { length src.now ≤ length s.old }
    ensures { s.new ≡ padded (length s.old) src.now }
{
    let n = src.len();
    put_bytes(src, &mut s[..n]);
    s[n..].fill(0);
}

fn put_head(s: &mut [u8], mark: u8, n: u8, own: &[u8])
    requires { 2 + length own.now ≤ length s.old }
    ensures { s.new ≡ head_of (length s.old) mark n own.now }
{
    s[0] = mark;
    s[1] = n;
    put_padded(&mut s[2..], own);
}

fn put_mates(s: &mut [u8], src: &[u16])
    requires { 2 * length src.now ≤ length s.old }
    ensures { s.new ≡ padded (length s.old) (bytes_of src.now) }
{
    s.fill(0);
    octets::scan::put_words(s, src);
}

// Whether a place of `size` bytes is a block, and it has room for so many bases and mates.
pub(crate) fn strand_fits(size: usize, most: usize, bases: usize, mates: usize) -> bool
    ensures { result ≡ strand_fits size most bases mates }
{
    if size != layout::BLOCK_SIZE {
        return false;
    }
    if most < bases {
        return false;
    }
    mates == bases
}

// The bytes of a block of the kind before the maps or the checksum. The two encoders meet the requires.
pub(crate) fn put_content(s: &mut [u8], kind: &Kind, own: &[u8], strand: &Strand)
    requires { (2 + length own.now ≤ kind.now.start) × (kind.now.start + 3 * kind.now.most ≤ length s.old)
        × (length strand.now.bases.now ≤ kind.now.most) × (length strand.now.mates.now ≡ length strand.now.bases.now) }
    ensures { s.new ≡ on_strand (content_of (kind_of kind.now) own.now) strand.now ++ drop (kind.now.start + 3 * kind.now.most) s.old }
{
    let Strand { bases, mates } = *strand;
    let n = bases.len() as u8;
    let start = kind.start;
    let f = start + kind.most;
    let h = f + 2 * kind.most;
    put_head(&mut s[..start], kind.mark, n, own);
    put_padded(&mut s[start..f], bases);
    put_mates(&mut s[f..h], mates);
}
