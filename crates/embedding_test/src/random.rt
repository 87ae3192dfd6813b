// All lists of places for random nested pairs, one of twenty with a motif that has no bases, against the definition written out: how many answers are
// wrong, how many are yes, and the arcs and depths that they say.
use super::ask::verify;
use super::naive::fits;
use std::alloc::{AllocError, Global};
use std::io;
use std::num::Saturating;
use testing::pairs::Pair;
use testing::random::next;
use testing::strands::{Bond, Strand, nest};

// How many answers are wrong and how many are yes, and the sums of the arcs and of the depths that they say.
#[derive(Clone, Copy, Debug, Default)]
struct Counts {
    wrong: Saturating<usize>,
    yes: Saturating<usize>,
    arcs: Saturating<usize>,
    depths: Saturating<usize>,
}

impl Counts {
    // The answer for these places, and the definition's.
    fn compare(&mut self, pair: &Pair, places: &[u16]) {
        let Ok((embeds, fold)) = verify(pair, places) else {
            self.wrong += 1;
            return;
        };
        self.wrong += usize::from(embeds != fits(pair, places));
        self.yes += usize::from(embeds);
        self.arcs += fold.arcs;
        self.depths += fold.depth;
    }

    // All lists of 4 places below 8: the digits of a number in base 8.
    fn compare_lists(&mut self, pair: &Pair) {
        for code in 0..4096u16 {
            self.compare(pair, &[code % 8, code / 8 % 8, code / 64 % 8, code / 512]);
        }
    }
}

// The letter that a random number names; A where there is no letter.
fn named(letters: &[u8], number: usize) -> u8 {
    letters
        .get(number % letters.len().max(1))
        .copied()
        .unwrap_or(b'A')
}

// A random nested strand of n of the letters.
fn nested(alloc: Global, seed: &mut usize, letters: &[u8], n: usize) -> Result<Strand, AllocError> {
    let mut strand = Strand::equal(alloc, n)?;
    let mut open = Vec::new(alloc);
    for (i, base) in strand.bases.iter_mut().enumerate() {
        *seed = next(*seed);
        *base = named(letters, *seed / 7);
        *seed = next(*seed);
        let step = match *seed / 5 % 4 {
            0 => Bond::Open,
            1 => Bond::Close,
            _ => Bond::Neither,
        };
        nest(&mut strand.mates, &mut open, i, step)?;
    }
    Ok(strand)
}

// So many pairs; of a random pair the motif has 4 bases and the molecule 7, and in one of twenty the motif has none.
fn pairs(alloc: Global, count: usize, letters: &[u8]) -> Result<Counts, AllocError> {
    let mut counts = Counts::default();
    let mut seed = 12345;
    for i in 0..count {
        let bases = if i % 20 == 0 { 0 } else { 4 };
        let pair = Pair {
            motif: nested(alloc, &mut seed, letters, bases)?,
            molecule: nested(alloc, &mut seed, letters, 7)?,
        };
        if bases == 0 {
            counts.compare(&pair, &[]);
        } else {
            counts.compare_lists(&pair);
        }
    }
    Ok(counts)
}

fn tell<R: Print + AllocGlobal>(rt: &R, name: &str, letters: &[u8]) -> io::Result<()> {
    let Counts {
        wrong,
        yes,
        arcs,
        depths,
    } = pairs(rt.alloc(), 50, letters)?;
    println!(rt; "all lists, {name}: wrong {wrong} yes {yes} arcs {arcs} depths {depths}")
}

// Of 1, 2 and 5 letters, and of three of which two match each other.
pub fn run<R: Print + AllocGlobal>(rt: &R) -> io::Result<()> {
    tell(rt, "1 letter", b"A")?;
    tell(rt, "2 letters", b"AC")?;
    tell(rt, "5 letters", b"ACGUT")?;
    tell(rt, "G, U and T", b"GUT")
}
