// Passes over slices: zeros, two-byte numbers.
ghost use Rattle.std.specs.Prelude.{◌≡◌, ◌+◌, ◌*◌, ◌<◌, ◌≤◌, ◌++◌, length, drop};
ghost use Rattle.lists.specs.Vocabulary.{all, same_list};
ghost use Rattle.octets.specs.Octets.{is_zero, word16, words, bytes_of};

// Whether every byte is 0: whether the largest is. No branch depends on a byte, so the processor takes several at a time.
pub fn all_zero(s: &[u8]) -> bool
    ensures { result ≡ all is_zero s.now }
{
    let mut largest: u8 = 0;
    for b in s {
        largest = largest.max(*b);
    }
    largest == 0
}

// The i-th two-byte number of s.
#[tactic(auto, unfolding(crate::specs::Octets::word16))]
fn word_at(s: &[u8], i: usize) -> u16
    requires { 2 * i + 1 < length s.now }
    ensures { result ≡ word16 s.now (2 * i) }
{
    u16::from_le_bytes([s[2 * i], s[2 * i + 1]])
}

// The two-byte numbers of s, as many as `out` has entries. The crates above, whose inner layer this is, meet what this and the next ones ask by the
// lengths of the parts that they hand on.
pub fn read_words(s: &[u8], out: &mut [u16])
    requires { 2 * length out.old ≤ length s.now }
    ensures { out.new ≡ words (length out.old) s.now }
{
    for (i, word) in out.iter_mut().enumerate() {
        *word = word_at(s, i);
    }
}

// Whether the two-byte numbers at the start of s are those of `src`.
pub fn same_words(s: &[u8], src: &[u16]) -> bool
    requires { 2 * length src.now ≤ length s.now }
    ensures { result ≡ same_list (words (length src.now) s.now) src.now }
{
    for (i, word) in src.iter().enumerate() {
        if word_at(s, i) != *word {
            return false;
        }
    }
    true
}

// Write two-byte numbers at the start of s.
pub fn put_words(s: &mut [u8], src: &[u16])
    requires { 2 * length src.now ≤ length s.old }
    ensures { s.new ≡ bytes_of src.now ++ drop (2 * length src.now) s.old }
{
    for (i, word) in src.iter().enumerate() {
        let [low, high] = word.to_le_bytes();
        s[2 * i] = low;
        s[2 * i + 1] = high;
    }
}
