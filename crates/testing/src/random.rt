// Random numbers and letters.

// The multiplier and the modulus of the generator of Park and Miller.
const MULTIPLIER: usize = 48271;

const MODULUS: usize = 2147483647;

// The next random number.
pub fn next(x: usize) -> usize {
    x % MODULUS * MULTIPLIER % MODULUS
}

// Letter c of ACGUT, and X from 5 on.
pub fn letter(c: usize) -> u8 {
    match c {
        0 => b'A',
        1 => b'C',
        2 => b'G',
        3 => b'U',
        4 => b'T',
        _ => b'X',
    }
}
