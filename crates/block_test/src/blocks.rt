// Questions on one block.
use super::cases::Kind;
use testing::slices::set;

// A block's bytes, and where its checksum begins.
pub const BLOCK: usize = 512;

const CHECKSUM_AT: usize = 508;

// Whether s is sound as a kind, or holds a motif.
pub fn is_sound(kind: Kind, s: &[u8]) -> bool {
    match kind {
        Kind::Molecule => block::sound::sound_molecule(s),
        Kind::Entry => block::sound::sound_entry(s),
        Kind::Motif => block::sound::sound_motif(s),
        Kind::HoldsMotif => block::sound::holds_motif(s),
    }
}

// Byte i becomes x: whether the block is sound with the checksum as it is, and with the checksum made right.
fn change(kind: Kind, s: &mut [u8], i: usize, x: u8) -> (bool, bool) {
    set(s, i, x);
    let as_it_is = is_sound(kind, s);
    block::checksum::put_checksum(s);
    (as_it_is, is_sound(kind, s))
}

// The digits of a damage: the last of the kind's number, and the three answers.
pub fn damage(number: usize, s: &mut [u8], i: usize, x: u8) -> usize {
    let kind = Kind::of(number);
    let was = s.get(i).copied().unwrap_or(0);
    let (old, made_right) = change(kind, s, i, x);
    let (_, back) = change(kind, s, i, was);
    let answers = usize::from(old) * 100 + usize::from(made_right) * 10 + usize::from(back);
    number % 10 * 1000 + answers
}

// The sum over bytes i = 0 to 507 of (i + 1) times byte i.
fn weighted(s: &[u8]) -> u32 {
    s.iter().take(CHECKSUM_AT).zip(1u32..).fold(
        0u32,
        |sum, (b, weight)| sum.wrapping_add(weight.wrapping_mul(u32::from(*b))),
    )
}

// Bytes 508 to 511 are the sum over the others.
pub fn is_summed(s: &[u8]) -> bool {
    match s.get(CHECKSUM_AT..BLOCK) {
        Some([a, b, c, d]) => weighted(s) == u32::from_le_bytes([*a, *b, *c, *d]),
        _ => false,
    }
}

// 1 for a searched number, and 2 more for a hit.
pub fn bits(s: &[u8], d: usize) -> usize {
    usize::from(codec::entry::searched(s, d)) + 2 * usize::from(codec::entry::hit(s, d))
}
