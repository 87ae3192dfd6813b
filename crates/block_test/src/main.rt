// Tests of the crates block, codec and buffer. The input has lines of 48 bytes: a letter, three numbers of five digits, and a name or a comment from
// column 20.
// `cases` says what each letter does. The expected answers stand in the lines; they come from a model of the blocks in Python,
// `tools/lakhido_model.py`, and `tools/block_cases.py` makes the lines. A group of cases is a line of the output.
#![tactic(auto)]

mod blocks;
mod cases;
mod state;

use cases::Command;
use state::State;
use std::io;
use std::io::BufReader;
use testing::input::{MOST_LINES, field, number, read};

// The bytes of a line, with its end.
const LINE: usize = 48;

// How many answers of a group were right and how many wrong.
#[derive(Clone, Copy, Debug, Default)]
struct Counts {
    right: usize,
    wrong: usize,
}

// One more; behind 65535 comes 1.
fn more(n: usize) -> usize {
    n % 65535 + 1
}

impl Counts {
    // An answer is counted, and told where it is wrong; a sum counts modulo 65536.
    fn count<P: Print>(&mut self, out: &P, line: &[u8], got: usize) -> io::Result<()> {
        if got % 65536 == number(line, 14..19) {
            self.right = more(self.right);
            return Ok(());
        }
        self.wrong = more(self.wrong);
        out.write_all(line)?;
        println!(out; " {}", got % 65536)
    }

    fn report<P: Print>(&self, out: &P, line: &[u8]) -> io::Result<()> {
        out.write_all(field(line, 20..47))?;
        println!(out; " {} right, {} wrong", self.right, self.wrong)
    }
}

// Does what a line says; false where the input ends at it.
fn step<R: Print + AllocGlobal>(
    rt: &R,
    line: &[u8],
    state: &mut State,
    counts: &mut Counts,
) -> io::Result<bool> {
    match Command::of(line) {
        Some(Command::Prepare(preparation)) => state.prepare(rt.alloc(), preparation, counts)?,
        Some(Command::Ask(question)) => counts.count(rt, line, state.answer(question))?,
        Some(Command::EndGroup) => {
            counts.report(rt, line)?;
            *counts = Counts::default();
        }
        None => return Ok(false),
    }
    Ok(true)
}

fn main(rt: HostRuntime) -> io::Result<()> {
    let alloc = rt.alloc();
    let mut state = State::new(alloc)?;
    let mut counts = Counts::default();
    let mut input = BufReader::new(alloc, rt.reader())?;
    let mut line = [0u8; LINE];
    for _ in 0..MOST_LINES {
        if !read(&mut input, &mut line)? || !step(&rt, &line, &mut state, &mut counts)? {
            break;
        }
    }
    Ok(())
}
