// Lines of the input, and their fields in fixed columns.
use std::alloc::{AllocError, Global};
use std::io;
use std::io::{ErrorKind, Read};
use std::ops::Range;

// How many lines an input that is read line by line has at most.
pub const MOST_LINES: usize = 99999;

// Reads the next line, which is as long as the slice; false where the input ends before.
pub fn read<R: Read>(input: &mut R, line: &mut [u8]) -> io::Result<bool> {
    match input.read_exact(line) {
        Ok(()) => Ok(true),
        Err(e) if e.kind() == ErrorKind::UnexpectedEof => Ok(false),
        Err(e) => Err(e),
    }
}

// The letters in these columns; none where the line ends before.
pub fn field(line: &[u8], columns: Range<usize>) -> &[u8] {
    line.get(columns).unwrap_or(&[])
}

// The letters in these columns before the first blank.
pub fn word(line: &[u8], columns: Range<usize>) -> &[u8] {
    let letters = field(line, columns);
    let filled = letters.iter().position(|b| *b <= b' ');
    letters
        .get(..filled.unwrap_or(letters.len()))
        .unwrap_or(letters)
}

// The number of the digits in these columns, ten at most; of a letter's value the last digit counts.
pub fn number(line: &[u8], columns: Range<usize>) -> usize {
    let mut n = 0usize;
    for i in columns {
        n = n % 1000000000 * 10 + usize::from(digit_at(line, i) % 10);
    }
    n
}

// The value of a digit, 10 and more for a to y, 0 for a blank and what comes before the digits; other letters are no position.
pub fn digit(letter: u8) -> u16 {
    match letter {
        0..=b'/' => 0,
        b'0'..=b'9' => u16::from(letter - b'0'),
        b'a'..=b'y' => u16::from(letter - b'a') + 10,
        _ => u16::MAX,
    }
}

// Fills the slice with the digits from a column on.
pub fn digits(line: &[u8], column: usize, to: &mut [u16]) {
    for (i, entry) in to.iter_mut().enumerate() {
        *entry = digit_at(line, column.saturating_add(i));
    }
}

// The digits of these letters.
pub fn digits_of(alloc: Global, letters: &[u8]) -> Result<Vec<u16>, AllocError> {
    let mut values = vec![in alloc; 0; letters.len()]?;
    digits(letters, 0, &mut values);
    Ok(values)
}

// The digit in a column; 0 past the end.
pub fn digit_at(line: &[u8], column: usize) -> u16 {
    line.get(column).copied().map_or(0, digit)
}
