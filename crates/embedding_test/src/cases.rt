// The cases of the input. Each line has the bases and mates of a motif, those of a molecule, and places, four bytes wide each and parted by
// blanks (a mate or a place is a digit, and `z` there means 65535), and what the case is about: the table's places, places that break one
// condition, refused inputs. Each is printed with the answer. Then strands of 4,097 bases.
use super::ask::verify;
use std::io;
use std::io::Read;
use testing::answer::{Fold, Refusal};
use testing::input::{digits_of, field, word};
use testing::pairs::Pair;
use testing::strands::Strand;

// The bytes of a line, with its end and without.
const LINE: usize = 48;

const TEXT: usize = 47;

// How many lines are read; behind them the first come again.
const MOST_LINES: usize = 65536;

fn say<P: Print>(out: &P, told: Result<(bool, Fold), Refusal>) -> io::Result<()> {
    match told {
        Ok((true, fold)) => print!(out; " yes {fold}"),
        Ok((false, fold)) => print!(out; " no {fold}"),
        Err(refusal) => print!(out; " {refusal}"),
    }
}

fn case<R: Print + AllocGlobal>(rt: &R, line: &[u8]) -> io::Result<()> {
    let alloc = rt.alloc();
    let pm = digits_of(alloc, word(line, 5..9))?;
    let qm = digits_of(alloc, word(line, 15..19))?;
    let pair = Pair {
        motif: Strand::new(alloc, word(line, 0..4), &pm)?,
        molecule: Strand::new(alloc, word(line, 10..14), &qm)?,
    };
    let places = digits_of(alloc, word(line, 20..24))?;
    say(rt, verify(&pair, &places))
}

// A motif and a molecule, without places.
fn ask<P: Print>(out: &P, motif: Strand, molecule: Strand) -> io::Result<()> {
    say(out, verify(&Pair { motif, molecule }, &[]))
}

// 4,097 bases, as a motif and as a molecule, for a motif of one base and for one of none.
fn too_long<R: Print + AllocGlobal>(rt: &R) -> io::Result<()> {
    let alloc = rt.alloc();
    let n = 4097;
    print!(rt; "4,097 bases:")?;
    ask(
        rt,
        Strand::equal(alloc, n)?,
        Strand::new(alloc, b"X", &[0])?,
    )?;
    ask(rt, Strand::equal(alloc, 1)?, Strand::equal(alloc, n)?)?;
    ask(rt, Strand::equal(alloc, 0)?, Strand::equal(alloc, n)?)?;
    println!(rt)
}

pub fn run<R: Input + Print + AllocGlobal>(rt: &R) -> io::Result<()> {
    let mut text = Vec::new(rt.alloc());
    rt.reader().read_to_end(&mut text)?;
    for i in 0..text.len() / LINE {
        let at = i % MOST_LINES * LINE;
        let line = field(&text, at..at + TEXT);
        rt.write_all(line)?;
        case(rt, line)?;
        println!(rt)?;
    }
    too_long(rt)
}
