// Entries and parts of slices, for every index and every length.

// A number as an entry of mates or places, modulo 65536.
pub fn entry(number: usize) -> u16 {
    (number % 65536) as u16
}

// A number as a byte, modulo 256.
pub fn byte(number: usize) -> u8 {
    (number % 256) as u8
}

// Entry i as a position, if there is one.
pub fn position_at(s: &[u16], i: usize) -> Option<usize> {
    s.get(i).copied().map(usize::from)
}

// Entry i becomes x; past the end nothing changes.
pub fn set<T: Copy>(s: &mut [T], i: usize, x: T) {
    if let Some(place) = s.get_mut(i) {
        *place = x;
    }
}

// i and j become each other's mates, as far as they are positions.
pub fn bond(mates: &mut [u16], i: usize, j: usize) {
    set(mates, i, entry(j));
    set(mates, j, entry(i));
}

// The first n entries; all of s where it has fewer.
pub fn first<T>(s: &[T], n: usize) -> &[T] {
    s.get(..n).unwrap_or(s)
}

pub fn first_mut<T>(s: &mut [T], n: usize) -> &mut [T] {
    let n = n.min(s.len());
    &mut s[..n]
}

// The entries behind the first n.
pub fn rest<T>(s: &[T], n: usize) -> &[T] {
    s.get(n..).unwrap_or(&[])
}

// A sum with one number more. Every number counts: one other changes the sum.
pub fn further(sum: u32, x: u32) -> u32 {
    sum.wrapping_mul(31).wrapping_add(x).wrapping_add(1)
}

// The sum of all entries.
pub fn sum<T: Copy>(s: &[T]) -> u32
where
    u32: From<T>,
{
    s.iter().fold(0, |sum, x| further(sum, u32::from(*x)))
}
