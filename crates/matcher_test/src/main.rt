// Tests of the crate matcher: the calls length and show on the cases of the input, which tools/matcher_cases.py makes.
// A line of 112 bytes has
// - in column 0 the calls: `l` length, `s` show, `=` none, `r` and others both;
// - from columns 2 and 27 the motif and the molecule (see `testing::strands`);
// - from columns 52 and 59 how many places and how many entries of work the call gets;
// - the wanted answer: in columns 65 and 66 the row of a refusal or 0, in 68 its side, from 70 its place or the length;
// - from columns 77 and 82 the wanted number of arcs and the wanted depth of an accepted call;
// - from column 87 what the case is about.
// A line `r` stands for so many random pairs, of rising seeds, as it has from column 70; what length is wanted of them says `testing::brute`.
// A line `=` ends a group: its name is written with the group's counts, and counting begins anew.
// An answer is right when it is the wanted one, a refused call changed nothing, and an accepted one changed only its part of the work and the places
// of the prefix, which verify accepts.
#![tactic(auto)]

mod ask;
mod tally;
mod wanted;

use ask::{Call, Slices};
use std::io;
use std::io::BufReader;
use tally::Tally;
use testing::input::{MOST_LINES, field, number, read};
use testing::pairs;
use testing::pairs::{LINE, Pair, TEXT, Wanted};

const BOTH: [Call; 2] = [Call::Length, Call::Show];

// What a line asks for: calls on its pair, both calls on so many random pairs, or the end of a group.
#[derive(Clone, Copy, Debug)]
enum Command {
    Ask(&'static [Call]),
    AskRandom(usize),
    EndGroup,
}

impl Command {
    fn of(line: &[u8]) -> Option<Command> {
        match line.first()? {
            b'l' => Some(Command::Ask(&[Call::Length])),
            b's' => Some(Command::Ask(&[Call::Show])),
            b'r' => Some(Command::AskRandom(number(line, 70..76))),
            b'=' => Some(Command::EndGroup),
            _ => Some(Command::Ask(&BOTH)),
        }
    }
}

// The lines' slices and counts.
#[derive(Debug, Drop)]
struct Bench {
    slices: Slices,
    tally: Tally,
}

impl Bench {
    // One call, which is told where its answer is wrong.
    fn call<P: Print>(
        &mut self,
        out: &P,
        line: &[u8],
        pair: &Pair,
        wanted: Wanted<usize>,
        call: Call,
    ) -> io::Result<()> {
        let told = self.slices.ask(line, pair, call);
        let right = told.is_some_and(|told| wanted.is(told) && self.slices.right(pair, call, told));
        if !right {
            pairs::tell(out, line, told)?;
        }
        self.tally.count(told, pair.motif.bases.len(), right);
        Ok(())
    }

    fn calls<P: Print>(
        &mut self,
        out: &P,
        line: &[u8],
        pair: &Pair,
        wanted: Wanted<usize>,
        calls: &[Call],
    ) -> io::Result<()> {
        for call in calls {
            self.call(out, line, pair, wanted, *call)?;
        }
        Ok(())
    }

    fn rounds<R: Print + AllocGlobal>(
        &mut self,
        rt: &R,
        line: &[u8],
        rounds: usize,
    ) -> io::Result<()> {
        for round in 0..rounds {
            let pair = pairs::make(rt.alloc(), line, round)?;
            self.calls(rt, line, &pair, wanted::of_pair(&pair), &BOTH)?;
        }
        Ok(())
    }

    fn end_group<P: Print>(&mut self, out: &P, line: &[u8]) -> io::Result<()> {
        out.write_all(pairs::name(line))?;
        self.tally.report(out)?;
        self.tally = Tally::default();
        Ok(())
    }

    fn step<R: Print + AllocGlobal>(&mut self, rt: &R, line: &[u8]) -> io::Result<()> {
        match Command::of(line) {
            Some(Command::Ask(calls)) => {
                let pair = pairs::make(rt.alloc(), line, 0)?;
                self.calls(rt, line, &pair, wanted::of_line(line), calls)
            }
            Some(Command::AskRandom(rounds)) => self.rounds(rt, line, rounds),
            Some(Command::EndGroup) => self.end_group(rt, line),
            None => Ok(()),
        }
    }
}

fn main(rt: HostRuntime) -> io::Result<()> {
    let alloc = rt.alloc();
    let mut bench = Bench {
        slices: Slices::new(alloc)?,
        tally: Tally::default(),
    };
    let mut input = BufReader::new(alloc, rt.reader())?;
    let mut line = [0u8; LINE];
    for _ in 0..MOST_LINES {
        if !read(&mut input, &mut line)? {
            break;
        }
        bench.step(&rt, field(&line, 0..TEXT))?;
    }
    Ok(())
}
