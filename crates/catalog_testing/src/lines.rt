// What a line of the input says.
use calls::{Added, Queried, Removed};
use std::alloc::{AllocError, Global};
use std::ops::Range;
use testing::answer::Refusal;
use testing::input::{digit_at, number};
use testing::slices::{byte, entry};
use testing::strands::Strand;

// How many bytes and entries the slices have that a call gets.
#[derive(Clone, Copy, Debug)]
pub struct Sizes {
    pub catalog: usize,
    pub cache: usize,
    pub work: usize,
    pub hits: usize,
}

impl Sizes {
    pub fn of(line: &[u8]) -> Sizes {
        Sizes {
            catalog: number(line, 10..16),
            cache: number(line, 17..22),
            work: number(line, 23..28),
            hits: number(line, 29..32),
        }
    }
}

#[derive(Clone, Copy, Debug, PartialEq, Eq)]
pub enum Call {
    Add(usize),
    Remove(usize),
    Query,
}

#[derive(Clone, Copy, Debug)]
pub enum Command {
    Ask(Call),
    SetByte(usize, u8),
    SetByteUncounted(usize, u8),
    Empty,
}

// The number of a call; 9999999 is the largest of all.
fn subject(line: &[u8]) -> usize {
    match number(line, 2..9) {
        9999999 => usize::MAX,
        d => d,
    }
}

impl Command {
    pub fn of(line: &[u8]) -> Option<Command> {
        let d = subject(line);
        let x = byte(number(line, 23..28));
        match line.first()? {
            b'A' => Some(Command::Ask(Call::Add(d))),
            b'R' => Some(Command::Ask(Call::Remove(d))),
            b'Q' => Some(Command::Ask(Call::Query)),
            b'S' => Some(Command::SetByte(d, x)),
            b'B' => Some(Command::SetByteUncounted(d, x)),
            b'N' => Some(Command::Empty),
            _ => None,
        }
    }
}

// An answer: a refusal, two numbers of an accepted call, or neither.
#[derive(Clone, Copy, Debug, PartialEq, Eq)]
pub enum Answer {
    Done,
    Numbers(usize, usize),
    Refused(Refusal),
}

impl Answer {
    // The answer that a line wants; a side or a place without a row is none that a call has.
    pub fn of(line: &[u8]) -> Answer {
        let last = number(line, 38..42);
        if number(line, 33..34) == 1 {
            return Answer::Numbers(number(line, 34..38), last);
        }
        match (number(line, 33..37), number(line, 37..38), last) {
            (0, 0, 0) => Answer::Done,
            (row, side, place) => Answer::Refused(Refusal { row, side, place }),
        }
    }

    pub fn of_add(added: Added) -> Answer {
        match added {
            Ok(fold) => Answer::Numbers(fold.arcs, fold.depth),
            Err(refusal) => Answer::Refused(Refusal::from(refusal)),
        }
    }

    pub fn of_remove(removed: Removed) -> Answer {
        match removed {
            Ok(()) => Answer::Done,
            Err(refusal) => Answer::Refused(Refusal::from(refusal)),
        }
    }

    pub fn of_query(queried: Queried) -> Answer {
        match queried {
            Ok(hits) => Answer::Numbers(hits.count, hits.searched),
            Err(refusal) => Answer::Refused(Refusal::from(refusal)),
        }
    }
}

// Whether a sum is the number in these columns.
pub fn is_sum(line: &[u8], columns: Range<usize>, sum: u32) -> bool {
    number(line, columns) == sum as usize
}

// A strand has no more bases and no more mates.
const STRAND_ROOM: usize = 161;

// The base at i: those written are repeated.
fn base(line: &[u8], i: usize) -> u8 {
    match number(line, 71..73) {
        0 => 0,
        n => line.get(i % n % 128 + 43).copied().unwrap_or(0),
    }
}

// The mate at i: none is bonded, or each with the one as far from the other end, or a digit for each.
fn mate(line: &[u8], i: usize) -> u16 {
    match line.get(57) {
        Some(b'-') => entry(i),
        Some(b'=') => {
            let last = number(line, 74..77).checked_sub(1);
            entry(last.and_then(|last| last.checked_sub(i)).unwrap_or(i))
        }
        _ => digit_at(line, i % 128 + 57),
    }
}

// Writes the strand of a line, with more bases and mates than it has, as far as there is room.
pub fn strand(line: &[u8], bases: &mut [u8], mates: &mut [u16]) {
    for (i, x) in bases.iter_mut().enumerate().take(STRAND_ROOM) {
        *x = base(line, i);
    }
    for (i, x) in mates.iter_mut().enumerate().take(STRAND_ROOM) {
        *x = mate(line, i);
    }
}

// The strand of a line.
pub fn strand_of(alloc: Global, line: &[u8]) -> Result<Strand, AllocError> {
    let bases = number(line, 74..77).min(STRAND_ROOM);
    let mates = number(line, 78..81).min(STRAND_ROOM);
    let mut made = Strand::blank(alloc, bases, mates)?;
    strand(line, &mut made.bases, &mut made.mates);
    Ok(made)
}
