// Tests of the call batch among adds, removes and queries, by the lines of `catalog_testing` and two more letters; `tools/batch_cases.py` makes them.
// `P` writes the strand of the line as block d of the buffer. `M` is a batch; it has in column 2 how many bytes the motif buffer has, from 43 on a
// digit for each of its blocks, which of the bank it is (10 and more are letters), in 61 how many entries the hits have (five digits), in 67
// the sum of the number read, the 16 counts and the 16 searched numbers (ten). The answer of an accepted batch is two numbers: how many motifs
// it has, and how many molecules it read.
//
// The bank is 35 motif blocks, which stand in the buffer behind the cache.
#![tactic(auto)]

mod batches;

use batches::Batches;
use catalog_testing::{Bench, LINE, lines};
use std::io;
use std::io::BufReader;
use testing::input::{MOST_LINES, number, read};

// How many blocks the bank has.
const BANK: u8 = 35;

// The lines that `catalog_testing` does not know.
#[derive(Clone, Copy, Debug)]
enum Command {
    Batch,
    Put(usize),
    EndGroup,
}

impl Command {
    fn of(line: &[u8]) -> Option<Command> {
        match line.first()? {
            b'M' => Some(Command::Batch),
            b'P' => Some(Command::Put(number(line, 2..9))),
            b'G' => Some(Command::EndGroup),
            _ => None,
        }
    }
}

fn step<R: Print + AllocGlobal>(
    rt: &R,
    line: &[u8],
    bench: &mut Bench,
    batches: &mut Batches,
) -> io::Result<()> {
    match Command::of(line) {
        Some(Command::Batch) => batches.ask(rt, line, bench)?,
        Some(Command::Put(d)) => bench.image.put(d, &lines::strand_of(rt.alloc(), line)?),
        Some(Command::EndGroup) => bench.counts.report_with_batches(rt, line)?,
        None => bench.act(rt, line)?,
    }
    Ok(())
}

fn main(rt: HostRuntime) -> io::Result<()> {
    let alloc = rt.alloc();
    let mut bench = Bench::new(alloc, BANK)?;
    let mut batches = Batches::new(alloc)?;
    let mut input = BufReader::new(alloc, rt.reader())?;
    let mut line = [0u8; LINE];
    for _ in 0..MOST_LINES {
        if !read(&mut input, &mut line)? {
            break;
        }
        step(&rt, &line, &mut bench, &mut batches)?;
    }
    Ok(())
}
