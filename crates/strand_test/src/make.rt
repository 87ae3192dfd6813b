// Mates by rule, and random strands.
ghost use Rattle.std.specs.Prelude.{ℕ, ◌<◌};

use std::alloc::{AllocError, Global};
use testing::random::{letter, next};
use testing::slices::{bond, entry, position_at, set};
use testing::strands::{Bond, Strand, nest};

// How the mates of a long strand lie: each its own, or n / 2 arcs, nested, each crossing each, or side by side.
#[derive(Clone, Copy, Debug, PartialEq, Eq)]
pub enum Form {
    Unbonded,
    Nested,
    Crossing,
    Beside,
}

impl Form {
    // The form of a number.
    pub fn of(number: usize) -> Form {
        match number {
            0 => Form::Unbonded,
            1 => Form::Nested,
            3 => Form::Beside,
            _ => Form::Crossing,
        }
    }

    // The mate of i among n bases.
    fn mate(self, n: usize, i: usize) -> usize
        requires { i < n }
    {
        let half = n / 2;
        match self {
            Form::Unbonded => i,
            Form::Nested => n - 1 - i,
            Form::Crossing if i < half => i + half,
            Form::Crossing => i - half,
            Form::Beside if i % 2 == 0 => i + 1,
            Form::Beside => i - 1,
        }
    }
}

// The mates of n bases by rule.
pub fn lay(form: Form, n: usize, mates: &mut [u16]) {
    for i in 0..n {
        set(mates, i, entry(form.mate(n, i)));
    }
}

// What is random in a strand: any mates; the seed's digits in base 6 as mates; nested arcs, with some bases that are no letters, with one mate altered,
// with two arcs exchanged, or as they are.
#[derive(Clone, Copy, Debug, PartialEq, Eq)]
pub enum Family {
    AnyMates,
    AllMates,
    AnyBases,
    MateAltered,
    ArcsExchanged,
    Nested,
}

// A number from 0 to n, by the low bits of a random number.
pub fn up_to(n: u16, x: usize) -> u16 {
    (x % 65536 % (usize::from(n) + 1)) as u16
}

// Bonds x with y, and their mates with each other.
fn exchange(mates: &mut [u16], x: usize, y: usize) {
    let a = position_at(mates, x);
    let b = position_at(mates, y);
    bond(mates, x, y);
    if let (Some(a), Some(b)) = (a, b) {
        bond(mates, a, b);
    }
}

impl Family {
    // A letter; where bases may be others, sometimes any byte.
    fn base(self, x: usize) -> u8 {
        if matches!(self, Family::AnyMates | Family::AnyBases) && x / 64 % 32 == 0 {
            return (x / 2048 % 256) as u8;
        }
        letter(x / 16 % 5)
    }

    // The random number behind x.
    fn advance(self, x: usize) -> usize {
        if self == Family::AllMates {
            x / 6
        } else {
            next(x)
        }
    }

    // A strand of n bases.
    fn fill(self, alloc: Global, seed: usize, n: u16) -> Result<Strand, AllocError> {
        let mut bases = Vec::new(alloc);
        let mut mates = Vec::new(alloc);
        let mut open = Vec::new(alloc);
        let mut x = seed;
        for i in 0..n {
            bases.push(self.base(x))?;
            mates.push(up_to(n, x))?;
            if !matches!(self, Family::AnyMates | Family::AllMates) {
                let step = match x / 1024 % 3 {
                    0 => Bond::Neither,
                    1 => Bond::Close,
                    _ => Bond::Open,
                };
                nest(&mut mates, &mut open, usize::from(i), step)?;
            }
            x = self.advance(x);
        }
        Ok(Strand { bases, mates })
    }

    // Alters one mate, or exchanges two arcs.
    fn alter(self, n: u16, x: usize, mates: &mut [u16]) {
        let Some(last) = n.checked_sub(1) else {
            return;
        };
        let i = usize::from(up_to(last, x));
        match self {
            Family::MateAltered => set(mates, i, up_to(n, x / 128)),
            Family::ArcsExchanged => exchange(mates, i, usize::from(up_to(last, x / 128))),
            _ => {}
        }
    }

    // How many bases strand x has.
    fn length(self, x: usize) -> u16 {
        match self {
            Family::AnyMates => up_to(4, x),
            Family::AllMates => 5,
            _ => up_to(40, x),
        }
    }

    // Strand i, by the random number x: of each sixteenth strand the mates are any number up to that of the bases.
    pub fn strand(self, alloc: Global, i: u16, x: usize) -> Result<Strand, AllocError> {
        let n = self.length(x);
        let seed = if self == Family::AllMates {
            usize::from(i)
        } else {
            next(x / 2 % 65536 + 1)
        };
        let mut strand = self.fill(alloc, seed, n)?;
        self.alter(n, x / 3, &mut strand.mates);
        if self != Family::AllMates && x / 5 % 16 == 0 {
            strand.mates.truncate(usize::from(up_to(n, x / 5 / 16)));
        }
        Ok(strand)
    }
}
