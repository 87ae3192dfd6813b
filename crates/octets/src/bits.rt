// Bits, tested, set and cleared by shifts and masks. Number d of a map is bit d mod 8, lowest first, of the map's byte d div 8.
ghost use Rattle.std.specs.Prelude.{◌≡◌, ◌+◌, ◌/◌, ◌<◌, ◌≤◌, MatchOption};
ghost use Rattle.octets.specs.Octets.{bit_of, without_bit, map_bit, clear_map};
ghost use Rattle.octets.specs.Bits.{with_bit, set_map, bits_within};

// Bit k of a byte; the byte with it set; the byte without it.
#[tactic(auto, using(crate::proofs::BitLaws::test_mask))]
fn bit_of(b: u8, k: u8) -> bool
    requires { k < 8 }
    ensures { result ≡ bit_of b k }
{
    (b >> k) & 1 == 1
}

#[tactic(auto, using(crate::proofs::BitLaws::with_mask))]
fn with_bit(b: u8, k: u8) -> u8
    requires { k < 8 }
    ensures { result ≡ with_bit b k }
{
    b | (1 << k)
}

#[tactic(auto, using(crate::proofs::BitLaws::without_mask))]
fn without_bit(b: u8, k: u8) -> u8
    requires { k < 8 }
    ensures { result ≡ without_bit b k }
{
    b & !(1 << k)
}

// Whether each bit of h is a bit of b too.
#[tactic(auto, using(crate::proofs::BitLaws::within_mask))]
pub fn within(h: u8, b: u8) -> bool
    ensures { result ≡ bits_within h b }
{
    h & !b == 0
}

// The index of the byte of bit d of the map at `at`; None past the end of a slice of `len` bytes.
fn byte_of(len: usize, at: usize, d: usize) -> Option<usize>
    ensures { MatchOption result (len ≤ at + d / 8) (λ j. (j ≡ at + d / 8) × (j < len)) }
{
    if at < len && d / 8 < len - at {
        Some(at + d / 8)
    } else {
        None
    }
}

// Bit d of the map at `at`; false past the end.
pub fn test(s: &[u8], at: usize, d: usize) -> bool
    ensures { result ≡ map_bit s.now at d }
{
    match byte_of(s.len(), at, d) {
        Some(j) => bit_of(s[j], (d % 8) as u8),
        None => false,
    }
}

// Set bit d of the map at `at`; nothing past the end.
pub fn set(s: &mut [u8], at: usize, d: usize)
    ensures { s.new ≡ set_map s.old at d }
{
    if let Some(j) = byte_of(s.len(), at, d) {
        s[j] = with_bit(s[j], (d % 8) as u8);
    }
}

// Clear bit d of the map at `at`; nothing past the end.
pub fn clear(s: &mut [u8], at: usize, d: usize)
    ensures { s.new ≡ clear_map s.old at d }
{
    if let Some(j) = byte_of(s.len(), at, d) {
        s[j] = without_bit(s[j], (d % 8) as u8);
    }
}
