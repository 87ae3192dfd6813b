// The strand that a field of an input line says, in 24 columns: ten of bases, a blank and ten of mates (a letter there means 65535), or a rule: a shape,
// how many bases, how many mates, a seed, which letters (see `among`). The bases of seed 0 are the letters in turn.
ghost use Rattle.std.specs.Prelude.{ℕ, ◌<◌};

use super::input::{digit_at, digits, number, word};
use super::random::letter;
use super::slices::{bond, entry, first_mut, set};
use std::alloc::{AllocError, Global};

// Room for a strand that has a base too many.
const STRAND_ROOM: usize = 4097;

// The digit of a random fold of stems.
const STEMS: u16 = 5;

// Bases and their mates.
#[derive(Debug, Drop)]
pub struct Strand {
    pub bases: Vec<u8>,
    pub mates: Vec<u16>,
}

// Bases and mates as the calls take them.
pub fn lend<'a>(bases: &'a [u8], mates: &'a [u16]) -> strand::Strand<'a> {
    strand::Strand { bases, mates }
}

impl Strand {
    pub fn new(alloc: Global, bases: &[u8], mates: &[u16]) -> Result<Strand, AllocError> {
        Ok(Strand {
            bases: bases.to_vec(alloc)?,
            mates: mates.to_vec(alloc)?,
        })
    }

    // The strand as the calls take it.
    pub fn lent(&self) -> strand::Strand<'_> {
        lend(&self.bases, &self.mates)
    }

    // So many bases A, each with the mate 0.
    pub fn equal(alloc: Global, n: usize) -> Result<Strand, AllocError> {
        Ok(Strand {
            bases: vec![in alloc; b'A'; n]?,
            mates: vec![in alloc; 0; n]?,
        })
    }

    // Room for so many bases and so many mates.
    pub fn blank(alloc: Global, bases: usize, mates: usize) -> Result<Strand, AllocError> {
        Ok(Strand {
            bases: vec![in alloc; 0; bases]?,
            mates: vec![in alloc; 0; mates]?,
        })
    }

    // The strand that `make` writes for a field; what is behind the room is cut off.
    pub fn of(alloc: Global, field: &[u8], round: usize) -> Result<Strand, AllocError> {
        let (bases, mates) = match Shape::of_field(field) {
            Some(_) => by_rule_lengths(field),
            None => written_lengths(field),
        };
        let mut strand = Strand::blank(alloc, bases.min(STRAND_ROOM), mates.min(STRAND_ROOM))?;
        make(field, round, &mut strand.bases, &mut strand.mates);
        Ok(strand)
    }
}

// Which arcs a rule makes; random arcs by a digit too.
#[derive(Clone, Copy, Debug, PartialEq, Eq)]
enum Shape {
    Unbonded,
    Stem,
    Comb,
    Balanced,
    Arcs(u16),
    Stems,
    Hairpins,
}

#[derive(Clone, Copy, Debug)]
struct Rule {
    shape: Shape,
    seed: usize,
    letters: u16,
}

impl Shape {
    // The shape of a digit.
    fn of(digit: u8) -> Option<Shape> {
        match digit {
            b'0' => Some(Shape::Unbonded),
            b'1' => Some(Shape::Stem),
            b'2' => Some(Shape::Comb),
            b'3' => Some(Shape::Balanced),
            b'5' => Some(Shape::Stems),
            b'6' => Some(Shape::Hairpins),
            b'4' | b'7'..=b'9' => Some(Shape::Arcs(u16::from(digit - b'0'))),
            _ => None,
        }
    }

    // The shape of the rule of a field; None where it spells a strand out.
    fn of_field(field: &[u8]) -> Option<Shape> {
        field.first().copied().and_then(Shape::of)
    }
}

// A letter by a random number: 1 to 6 are so many of the first of ACGUTX, in 7 and 8 T stands for U and U for T, 9 is G, U and T. Behind 6 letters X
// comes again.
fn among(letters: u16, x: usize) -> u8 {
    match letters {
        0 => b'A',
        7 => b"ACGT"[x % 4],
        8 => b"ACGTU"[x % 5],
        9 => b"GUT"[x % 3],
        n => letter(x % usize::from(n)),
    }
}

// A number for a seed and a position: two products with a shift after each.
fn random(seed: u16, i: u16) -> u32 {
    let x = (u32::from(seed) << 16 | u32::from(i))
        .wrapping_add(1)
        .wrapping_mul(2654435761);
    let y = (x ^ (x >> 16)).wrapping_mul(2246822519);
    y ^ (y >> 13)
}

// The reach of hairpins one behind the other, each of eight bases, the outer three of them on each side bonded.
fn hairpin(from: usize, size: usize) -> usize {
    let far = match from % 8 {
        0 => 7,
        1 => 5,
        2 => 3,
        _ => 0,
    };
    if far < size { far } else { 0 }
}

// How far an arc of a random fold goes.
fn arc_reach(x: u32, size: usize) -> usize
    requires { 0 < size }
{
    if x % 3 == 0 {
        return 0;
    }
    x as usize / 12 % size
}

// How far an arc of a random fold of stems goes.
fn stem_reach(x: u32, size: usize) -> usize
    requires { 0 < size }
{
    if x % 3 != 0 && x / 3 % 4 != 0 {
        return size - 1;
    }
    arc_reach(x, size)
}

// What a position of a random nested strand does.
#[derive(Clone, Copy, Debug, PartialEq, Eq)]
pub enum Bond {
    Open,
    Close,
    Neither,
}

// Opens a bond at i, or closes the last open one there, or leaves i unbonded. `open` has the open positions.
pub fn nest(
    mates: &mut [u16],
    open: &mut Vec<usize>,
    i: usize,
    step: Bond,
) -> Result<(), AllocError> {
    set(mates, i, entry(i));
    match step {
        Bond::Open => open.push(i)?,
        Bond::Close => {
            if let Some(j) = open.pop() {
                bond(mates, i, j);
            }
        }
        Bond::Neither => {}
    }
    Ok(())
}

impl Rule {
    // Base i.
    fn base(&self, i: usize) -> u8 {
        if self.seed == 0 {
            return among(self.letters, i);
        }
        among(self.letters, random(entry(self.seed), entry(i)) as usize)
    }

    // The random number of a stretch, by a digit.
    fn random(&self, digit: u16, from: usize, size: usize) -> u32 {
        let offset = entry(random(entry(size), digit) as usize);
        random(entry(self.seed), entry(from).wrapping_add(offset))
    }

    // How far the arc that begins a stretch goes, 0 for no arc.
    fn reach(&self, from: usize, size: usize) -> usize {
        if size < 2 {
            return 0;
        }
        match self.shape {
            Shape::Unbonded => 0,
            Shape::Stem => size - 1,
            Shape::Comb if from == 0 => size - 1,
            Shape::Comb if size < 3 => 0,
            Shape::Comb => 2,
            Shape::Balanced => size / 2,
            Shape::Hairpins => hairpin(from, size),
            Shape::Arcs(digit) => arc_reach(self.random(digit, from, size), size),
            Shape::Stems => stem_reach(self.random(STEMS, from, size), size),
        }
    }

    // Folds the positions from `from` to `to`: the arc that begins there, what lies in it, and what comes after it.
    fn fold(&self, from: usize, to: usize, mates: &mut [u16]) {
        if to <= from {
            return;
        }
        let reach = self.reach(from, to - from);
        if to - from <= reach {
            return;
        }
        let end = from + reach;
        bond(mates, from, end);
        self.fold(from + 1, end, mates);
        self.fold(end + 1, to, mates);
    }
}

// How many bases a rule has, and how many mates.
fn by_rule_lengths(field: &[u8]) -> (usize, usize) {
    (number(field, 2..8), number(field, 9..15))
}

// Writes the strand of a rule, its seed that of the field plus the round.
fn by_rule(field: &[u8], shape: Shape, round: usize, bases: &mut [u8], mates: &mut [u16]) {
    let rule = Rule {
        shape,
        seed: number(field, 16..22) % 65536 + round % 65536,
        letters: digit_at(field, 23),
    };
    let (most, length) = by_rule_lengths(field);
    for (i, base) in bases.iter_mut().enumerate().take(most) {
        *base = rule.base(i);
    }
    rule.fold(0, length, mates);
}

// How many bases a field spells out, and how many mates.
fn written_lengths(field: &[u8]) -> (usize, usize) {
    (word(field, 0..10).len(), word(field, 11..21).len())
}

// Writes what stands in the columns of a field that spells a strand out.
fn write_out(field: &[u8], bases: &mut [u8], mates: &mut [u16]) {
    for i in 0..10 {
        set(bases, i, field.get(i).copied().unwrap_or(0));
    }
    digits(field, 11, first_mut(mates, 10));
}

// The strand that a field spells out.
pub fn written(alloc: Global, field: &[u8]) -> Result<Strand, AllocError> {
    let (bases, mates) = written_lengths(field);
    let mut strand = Strand::blank(alloc, bases, mates)?;
    write_out(field, &mut strand.bases, &mut strand.mates);
    Ok(strand)
}

// Writes the strand of a field, in a round of those that a line stands for, as far as there is room.
pub fn make(field: &[u8], round: usize, bases: &mut [u8], mates: &mut [u16]) {
    match Shape::of_field(field) {
        Some(shape) => by_rule(field, shape, round, bases, mates),
        None => write_out(field, bases, mates),
    }
}
