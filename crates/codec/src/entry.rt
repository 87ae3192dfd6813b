// A cache entry (01: kept block): the motif it keeps, its bits, its encoder, and what the calls do to one.
ghost use Rattle.std.specs.Prelude.{◌≡◌, ◌≤◌, length};
ghost use Rattle.strand.specs.Strands.{same_strand};
ghost use Rattle.strand.specs.Lent.{lent, on_strand};
ghost use Rattle.block.specs.Content.{block_size, entry_bases, length_in, motif_in, searched_in, hit_in};
ghost use Rattle.block.specs.Block.{cleaned, forgot};
ghost use Rattle.codec.specs.Outcomes.{entry_keeps, wrote, entry_wrote};

use block::{kind, layout};
use strand::Strand;

// Whether the motif of an entry is this one: its bases, and its mates as they lie in the block.
fn keeps_motif(s: &[u8], motif: &Strand) -> bool
    requires { (length s.now ≡ block_size) × (length_in s.now ≤ entry_bases) }
    ensures { result ≡ same_strand (motif_in s.now) (lent motif.now) }
{
    let Strand { bases, mates } = *motif;
    let n = s[1] as usize;
    let e = layout::ENTRY_START + n;
    if &s[layout::ENTRY_START..e] != bases {
        return false;
    }
    if mates.len() != n {
        return false;
    }
    octets::scan::same_words(&s[layout::ENTRY_MATES_AT..], mates)
}

// Whether an entry keeps this very motif; false where s can be no entry. Soundness is not tested again: query asks it of a block that was
// found sound or zeroed.
pub fn keeps(s: &[u8], motif: &Strand) -> bool
    ensures { result ≡ entry_keeps s.now (lent motif.now) }
{
    if s.len() != layout::BLOCK_SIZE {
        return false;
    }
    let n = s[1] as usize;
    if layout::ENTRY_BASES < n {
        return false;
    }
    if octets::scan::all_zero(s) {
        return false;
    }
    keeps_motif(s, motif)
}

// Whether number d was searched; false past the end of s.
pub fn searched(s: &[u8], d: usize) -> bool
    ensures { result ≡ searched_in s.now d }
{
    octets::bits::test(s, layout::SEARCHED_AT, d)
}

// Whether number d is a hit; false past the end of s.
pub fn hit(s: &[u8], d: usize) -> bool
    ensures { result ≡ hit_in s.now d }
{
    octets::bits::test(s, layout::HIT_AT, d)
}

// Write the entry of a motif of at most 120 bases and its two maps of 64 bytes. False, and nothing written, where s is not one block, the
// motif does not fit or a map is not 64 bytes.
pub fn encode_entry(s: &mut [u8], motif: &Strand, searched: &[u8], hits: &[u8]) -> bool
    ensures { wrote result s.new ≡ on_strand (entry_wrote s.old) motif.now searched.now hits.now }
{
    if !crate::parts::strand_fits(
        s.len(),
        layout::ENTRY_BASES,
        motif.bases.len(),
        motif.mates.len(),
    ) {
        return false;
    }
    if searched.len() != layout::MAP_SIZE {
        return false;
    }
    if hits.len() != layout::MAP_SIZE {
        return false;
    }
    crate::parts::put_content(s, &kind::ENTRY, b"", motif);
    s[layout::SEARCHED_AT..layout::HIT_AT].copy_from_slice(searched);
    s[layout::HIT_AT..layout::CHECKSUM_AT].copy_from_slice(hits);
    block::checksum::put_checksum(s);
    true
}

// Zero a cache block that is not sound.
pub fn clean(s: &mut [u8])
    ensures { s.new ≡ cleaned s.old }
{
    if !block::sound::sound_entry(s) {
        s.fill(0);
    }
}

// Take number d out of both maps of a cache entry, whose byte 0 is 2; any other block stays.
pub fn forget(s: &mut [u8], d: usize)
    ensures { s.new ≡ forgot d s.old }
{
    if s.len() != layout::BLOCK_SIZE {
        return;
    }
    let k = s[0];
    if k != layout::ENTRY_MARK {
        return;
    }
    octets::bits::clear(s, layout::SEARCHED_AT, d);
    octets::bits::clear(s, layout::HIT_AT, d);
    block::checksum::put_checksum(s);
}
