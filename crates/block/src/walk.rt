// The walk over the content of a block, from byte 0 to byte 507, in stretches. A stretch is handed the sum over the bytes before it, and hands on
// the sum over all bytes passed, its own too: in `Ok` where its bytes keep their rule, else in `Err`. In no loop does a branch depend on a byte, so the
// processor takes several bytes at a time.
ghost use Rattle.std.specs.Prelude.{◌≡◌, ℕ, ◌+◌, ◌*◌, ◌%◌, ◌≤◌, ◌<◌, length, drop};
ghost use Rattle.std.specs.Bool.{then_some};
ghost use Rattle.lists.specs.Vocabulary.{all, between, nth};
ghost use Rattle.letters.specs.Letters.{is_letter};
ghost use Rattle.strand.specs.Strands.{is_nested, Inside};
ghost use Rattle.octets.specs.Octets.{is_zero, words};
ghost use Rattle.block.specs.Content.{block_size, checksum_at, block_bases, searched_at, sum_to};
ghost use Rattle.block.specs.Block.{hits_ok};
ghost use Rattle.block.specs.Walk.{most_term, low_sum, OneByte, passed};

use crate::layout;
use letters;
use refusals::Side;
use strand::levels;

// The weight times the byte. The remainder leaves a weight of this walk as it is, and shows the compiler that 16 bits hold it.
fn weighed(weight: usize, b: u8) -> u32
    ensures { result ≡ weight % block_size * b }
{
    (weight % layout::BLOCK_SIZE) as u32 * (b as u32)
}

// Byte b at place i, times its weight.
fn term(i: usize, b: u8) -> u32
    requires { i < checksum_at }
    ensures { (result ≡ (i + 1) * b) × (result ≤ most_term) }
{
    weighed(i + 1, b)
}

// Bytes a to before e, under no rule of this walk: the kind and the length, which have been read, and all bytes where a checksum is written. The place is
// carried beside the byte: counted by `enumerate`, a byte takes half as many instructions again.
pub(crate) fn gather(s: &[u8], a: usize, e: usize, sum: u32) -> u32
    requires a_le_e { (a ≤ e) × (e ≤ checksum_at) × (e ≤ length s.now) }
    requires sum_value { sum ≡ sum_to s.now a }
    ensures { result ≡ sum_to s.now e }
{
    let mut total = sum;
    let mut place = a;
    for b in &s[a..e] {
        total += term(place, *b);
        place += 1;
    }
    total
}

// What a stretch hands on, where `kept` says whether its bytes keep their rule.
#[tactic(auto, unfolding(crate::specs::Walk::passed))]
fn passed(kept: bool, sum: u32) -> Result<u32, u32>
    ensures { result ≡ passed kept sum }
{
    if kept { Ok(sum) } else { Err(sum) }
}

// Bytes that must be zeros: they add nothing. No sum is handed on of bytes that are none, which nobody has summed.
pub(crate) fn zeros(s: &[u8], a: usize, e: usize, sum: u32) -> Option<u32>
    requires a_le_e { (a ≤ e) × (e ≤ length s.now) }
    requires sum_value { sum ≡ sum_to s.now a }
    ensures { result ≡ then_some (all is_zero (between a e s.now)) (sum_to s.now e) }
{
    octets::scan::all_zero(&s[a..e]).then_some(sum)
}

// Bytes that must be letters of the side. The weight is carried beside the byte: made of the index, the walk takes an eighth longer.
pub(crate) fn bases(s: &[u8], side: Side, a: usize, e: usize, sum: u32) -> Result<u32, u32>
    requires a_le_e { (a ≤ e) × (e ≤ checksum_at) × (e ≤ length s.now) }
    requires sum_value { sum ≡ sum_to s.now a }
    ensures { result ≡ passed (all (is_letter side) (between a e s.now)) (sum_to s.now e) }
{
    let stretch = &s[a..e];
    let mut total = sum;
    let mut least: u8 = 1;
    let mut weight = a + 1;
    for b in stretch {
        least = least.min(letters::is_letter(side, *b) as u8);
        total += weighed(weight, *b);
        weight += 1;
    }
    passed(least == 1, total)
}

// What mates add to the sum by their low bytes, the first of them at byte `at`, and whether all of them are in range. The weight is carried beside the
// mate, as beside the byte in `bases`.
fn weigh(mates: &[u16], at: usize, sum: u32) -> Result<u32, u32>
    requires mates_bound { at + 2 * length mates.now ≤ checksum_at }
    requires sum_bound { sum ≤ most_term * at }
    ensures inside { (total : ℕ) → result ≡ Ok total
        → Inside (nth mates.now) (length mates.now) × (total ≡ sum + low_sum at mates.now (length mates.now)) }
    ensures outside { (total : ℕ) → result ≡ Err total
        → (Inside (nth mates.now) (length mates.now) → ⊥) × (total ≡ sum + low_sum at mates.now (length mates.now)) }
{
    let mut total = sum;
    let mut outside: u16 = 0;
    let mut weight = at + 1;
    for mate in mates {
        outside += (*mate as usize >= mates.len()) as u16;
        total += weighed(weight, (*mate % 256) as u8);
        weight += 2;
    }
    passed(outside == 0, total)
}

// Whether mates in range are mutual and nested.
fn nested(mates: &[u16]) -> bool
    requires mates_len_bound { length mates.now ≤ block_bases }
    requires inside { Inside (nth mates.now) (length mates.now) }
    ensures { result ≡ is_nested mates.now }
{
    if levels::all_unbonded(mates) {
        return true;
    }
    let n = mates.len();
    let mut own = [0u32; layout::BLOCK_BASES];
    let mut told = [0u32; layout::BLOCK_BASES];
    levels::is_nested(mates, &mut own[..n], &mut told[..n])
}

// Mates that have been read must be nested.
fn read_mates(mates: &[u16], at: usize, sum: u32) -> Result<u32, u32>
    requires mates_len_bound { (length mates.now ≤ block_bases) × (at + 2 * length mates.now ≤ checksum_at) }
    requires sum_bound { sum ≤ most_term * at }
    ensures { result ≡ passed (is_nested mates.now) (sum + low_sum at mates.now (length mates.now)) }
{
    match weigh(mates, at, sum) {
        Ok(total) => passed(nested(mates), total),
        Err(total) => Err(total),
    }
}

// The n mates that lie from `at` on must be nested. 160 are read, which is one copy of fixed size; those behind the first n, in an entry 40 of them from
// the bytes of its maps, are looked at by nobody. The low bytes are summed: they add all where no mate needs its high byte, and nested mates need none.
pub(crate) fn mates(s: &[u8], at: usize, n: usize, sum: u32) -> Result<u32, u32>
    requires n_le_block_bases { (n ≤ block_bases) × (at + 2 * n ≤ checksum_at) × (at + 2 * block_bases ≤ length s.now) }
    requires sum_value { sum ≡ sum_to s.now at }
    ensures tested { result ≡ passed (is_nested (words n (drop at s.now))) (sum_to s.now at + low_sum at (words n (drop at s.now)) n) }
    ensures summed { OneByte (words n (drop at s.now)) n
        → result ≡ passed (is_nested (words n (drop at s.now))) (sum_to s.now (at + 2 * n)) }
{
    let mut places = [0u16; layout::BLOCK_BASES];
    octets::scan::read_words(&s[at..], &mut places);
    read_mates(&places[..n], at, sum)
}

// The two maps of an entry, side by side: each hit bit must have its searched bit.
// By index: each turn reads two parts of one block.
pub(crate) fn maps(s: &[u8], sum: u32) -> Result<u32, u32>
    requires s_len { length s.now ≡ block_size }
    requires sum_value { sum ≡ sum_to s.now searched_at }
    ensures { result ≡ passed (hits_ok s.now) (sum_to s.now checksum_at) }
{
    let mut total = sum;
    let mut least: u8 = 1;
    for i in 0..layout::MAP_SIZE {
        let searched = s[layout::SEARCHED_AT + i];
        let hit = s[layout::HIT_AT + i];
        least = least.min(octets::bits::within(hit, searched) as u8);
        total += weighed(layout::SEARCHED_AT + i + 1, searched)
            + weighed(layout::HIT_AT + i + 1, hit);
    }
    passed(least == 1, total)
}
