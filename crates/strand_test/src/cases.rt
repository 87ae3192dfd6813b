// The cases of the input, a line of 48 bytes each: a command, its arguments in fixed columns, and a name from column 26.
// Small strands: `s` has bases from column 2 and mates, a digit each, from column 13 (`X` means 65535); it is checked as a molecule and as
// a motif. `l` is checked with the least and the greatest length of columns 24 and 25. `p` is a motif, checked with the strand A, 0 as the
// molecule; `q` is a molecule, checked with the motif A, 0, and `e` with the motif that has no bases; `w` is checked as both.
// Long strands stay from line to line: `f a b` gives b bases mates of form a, `b a v` and `m a v` set a base and a mate, `c a b` checks the
// first a bases with the first b mates, and `x` and `y` check all of them as the motif and as the molecule of a pair, `z` as the molecule for the
// motif that has no bases.
use super::make::Form;
use super::{ask, make};
use std::io;
use std::io::Read;
use testing::answer::{Fold, Refusal};
use testing::input::{digit_at, field, number};
use testing::slices::{byte, entry, first, set};
use testing::strands;
use testing::strands::Strand;

// The bytes of a line, with its end and without.
const LINE: usize = 48;

const TEXT: usize = 47;

// How many lines are read; behind them the first come again.
const MOST_LINES: usize = 65536;

// What is asked of a strand.
#[derive(Clone, Copy, Debug, PartialEq, Eq)]
enum Question {
    Alone,
    Limited(usize, usize),
    Motif,
    Molecule,
    MoleculeForNoBases,
    Both,
}

#[derive(Clone, Copy, Debug, PartialEq, Eq)]
enum Command {
    Small(Question),
    Lay(Form, usize),
    SetBase(usize, u8),
    SetMate(usize, u16),
    CheckFirst(usize, usize),
    Long(Question),
}

impl Command {
    // What a line asks for, if anything.
    fn of(line: &[u8]) -> Option<Command> {
        let a = number(line, 2..7);
        let b = number(line, 8..13);
        let limits = Question::Limited(
            usize::from(digit_at(line, 24)),
            usize::from(digit_at(line, 25)),
        );
        match line.first()? {
            b's' => Some(Command::Small(Question::Alone)),
            b'l' => Some(Command::Small(limits)),
            b'p' => Some(Command::Small(Question::Motif)),
            b'q' => Some(Command::Small(Question::Molecule)),
            b'e' => Some(Command::Small(Question::MoleculeForNoBases)),
            b'w' => Some(Command::Small(Question::Both)),
            b'f' => Some(Command::Lay(Form::of(a), b)),
            b'b' => Some(Command::SetBase(a, byte(b))),
            b'm' => Some(Command::SetMate(a, entry(b))),
            b'c' => Some(Command::CheckFirst(a, b)),
            b'x' => Some(Command::Long(Question::Motif)),
            b'y' => Some(Command::Long(Question::Molecule)),
            b'z' => Some(Command::Long(Question::MoleculeForNoBases)),
            _ => None,
        }
    }
}

fn say_verdict<P: Print>(out: &P, told: Result<(), Refusal>) -> io::Result<()> {
    match told {
        Ok(()) => print!(out; " accepted"),
        Err(refusal) => print!(out; " {refusal}"),
    }
}

fn say_checked<P: Print>(out: &P, told: Result<Fold, Refusal>) -> io::Result<()> {
    match told {
        Ok(fold) => print!(out; " accepted {fold}"),
        Err(refusal) => print!(out; " {refusal}"),
    }
}

// A strand as a molecule and as a motif.
fn alone<P: Print>(out: &P, strand: &strand::Strand) -> io::Result<()> {
    print!(out; " molecule")?;
    say_checked(out, ask::check(strand))?;
    print!(out; ", motif")?;
    say_verdict(out, ask::check_motif(strand, 0, 120))
}

fn answer<P: Print>(out: &P, question: Question, s: &Strand) -> io::Result<()> {
    let strand = s.lent();
    let single = strand::Strand {
        bases: b"A",
        mates: &[0],
    };
    let empty = strand::Strand {
        bases: b"",
        mates: &[],
    };
    let told = match question {
        Question::Alone => return alone(out, &strand),
        Question::Limited(least, greatest) => ask::check_motif(&strand, least, greatest),
        Question::Motif => ask::check_pair(&strand, &single),
        Question::Molecule => ask::check_pair(&single, &strand),
        Question::MoleculeForNoBases => ask::check_pair(&empty, &strand),
        Question::Both => ask::check_pair(&strand, &strand),
    };
    say_verdict(out, told)
}

// Does what a line asks for; `long` is the long strand.
fn act<R: Print + AllocGlobal>(rt: &R, line: &[u8], long: &mut Strand) -> io::Result<()> {
    match Command::of(line) {
        Some(Command::Small(question)) => {
            answer(
                rt,
                question,
                &strands::written(rt.alloc(), field(line, 2..23))?,
            )?;
        }
        Some(Command::Lay(form, n)) => make::lay(form, n, &mut long.mates),
        Some(Command::SetBase(i, base)) => set(&mut long.bases, i, base),
        Some(Command::SetMate(i, mate)) => set(&mut long.mates, i, mate),
        Some(Command::CheckFirst(a, b)) => {
            let strand = strand::Strand {
                bases: first(&long.bases, a),
                mates: first(&long.mates, b),
            };
            alone(rt, &strand)?;
        }
        Some(Command::Long(question)) => answer(rt, question, long)?,
        None => {}
    }
    Ok(())
}

pub fn run<R: Input + Print + AllocGlobal>(rt: &R) -> io::Result<()> {
    let alloc = rt.alloc();
    let mut long = Strand::equal(alloc, 4097)?;
    let mut text = Vec::new(alloc);
    rt.reader().read_to_end(&mut text)?;
    for i in 0..text.len() / LINE {
        let at = i % MOST_LINES * LINE;
        let line = field(&text, at..at + TEXT);
        rt.write_all(line)?;
        act(rt, line, &mut long)?;
        println!(rt)?;
    }
    Ok(())
}
