// Random strands, and all lists of five mates from 0 to 5, against the definition written out.
use super::make::{Family, up_to};
use super::{ask, naive};
use std::io;
use std::num::Saturating;
use testing::answer::{Fold, Refusal};
use testing::random::next;
use testing::strands::Strand;

// How many answers were compared and how many are wrong; how many should be accepted and, by row, refused; the arcs and the depths that check answers.
#[derive(Clone, Copy, Debug, Default)]
struct Counts {
    compared: Saturating<usize>,
    wrong: Saturating<usize>,
    accepted: Saturating<usize>,
    refused: [Saturating<usize>; 8],
    arcs: Saturating<usize>,
    depths: Saturating<usize>,
}

impl Counts {
    // An answer, and what it should be.
    fn count<T: Copy + PartialEq>(&mut self, got: Result<T, Refusal>, want: Result<T, Refusal>) {
        self.compared += 1;
        if got != want {
            self.wrong += 1;
        }
        match want {
            Ok(_) => self.accepted += 1,
            Err(refusal) => {
                if let Some(count) = self.refused.get_mut(refusal.row) {
                    *count += 1;
                }
            }
        }
    }

    fn count_fold(&mut self, got: Result<Fold, Refusal>) {
        if let Ok(fold) = got {
            self.arcs += fold.arcs;
            self.depths += fold.depth;
        }
    }

    // Compares the answers for a molecule and for a motif of so many bases to 30.
    fn judge(&mut self, s: &Strand, least: usize) {
        let got = ask::check(&s.lent());
        self.count(got, naive::check(&s.bases, &s.mates));
        self.count_fold(got);
        self.count(
            ask::check_motif(&s.lent(), least, 30),
            naive::answer(&s.bases, &s.mates, 0, least, 30),
        );
    }

    fn report<P: Print>(&self, out: &P, name: &str) -> io::Result<()> {
        print!(out;
            "{name}: compared {}, disagreements {}",
            self.compared, self.wrong
        )?;
        print!(out; ", accepted and by row {}", self.accepted)?;
        for count in self.refused.iter().skip(1) {
            print!(out; " {count}")?;
        }
        println!(out; "; arcs {}, depths {}", self.arcs, self.depths)
    }
}

// So many strands of a family.
fn family<R: Print + AllocGlobal>(
    rt: &R,
    name: &str,
    family: Family,
    times: u16,
) -> io::Result<()> {
    let mut counts = Counts::default();
    for i in 0..times {
        let x = next(usize::from(i) + 99);
        let strand = family.strand(rt.alloc(), i, x)?;
        counts.judge(&strand, usize::from(up_to(3, x / 7)));
    }
    counts.report(rt, name)
}

pub fn run<R: Print + AllocGlobal>(rt: &R) -> io::Result<()> {
    family(rt, "any mates", Family::AnyMates, 1000)?;
    family(rt, "all five mates from 0 to 5", Family::AllMates, 7776)?;
    family(rt, "nested, some bases no letters", Family::AnyBases, 1000)?;
    family(rt, "nested, one mate altered", Family::MateAltered, 1000)?;
    family(
        rt,
        "nested, two arcs exchanged",
        Family::ArcsExchanged,
        1000,
    )?;
    family(rt, "nested", Family::Nested, 1000)
}
