// Tests of the crate window: the call window on the cases of the input, which tools/window_cases.py makes.
// A line of 112 bytes has
// - in column 0 `r` for random pairs, `=` for the end of a group, `w` or another letter for a call;
// - from columns 2 and 27 the motif and the molecule (see `testing::strands`);
// - from column 52 how many entries of work the call gets;
// - a wanted refusal: in columns 59 and 60 its row or 0, in 62 its side, from 64 its place;
// - a wanted window: in column 69 whether there is one, from 71 its start, from 76 its length;
// - from columns 81 and 86 the wanted number of arcs and the wanted depth of an accepted call;
// - from column 91 what the case is about.
// A line `r` stands for so many random pairs, of rising seeds, as it has from column 64; what window is wanted of them says `every`.
// A line `=` ends a group: its name is written with the group's counts, and counting begins anew.
// An answer is right when it is the wanted one, a refused call changed nothing, and an accepted one changed only its part of the work.
#![tactic(auto)]

mod ask;
mod every;
mod tally;

use std::io;
use std::io::BufReader;
use tally::Tally;
use testing::input::{MOST_LINES, field, number, read};
use testing::lent::Lent;
use testing::pairs;
use testing::pairs::{FILL, LINE, Pair, TEXT, WORK_ROOM, Wanted};

// What a line asks for: the call on its pair, the call on so many random pairs, or the end of a group.
#[derive(Clone, Copy, Debug)]
enum Command {
    Ask,
    AskRandom(usize),
    EndGroup,
}

impl Command {
    fn of(line: &[u8]) -> Option<Command> {
        match line.first()? {
            b'r' => Some(Command::AskRandom(number(line, 64..68))),
            b'=' => Some(Command::EndGroup),
            _ => Some(Command::Ask),
        }
    }
}

// The work slice of the calls, and their counts.
#[derive(Debug, Drop)]
struct Bench {
    work: Lent,
    tally: Tally,
}

impl Bench {
    // One call, which is told where its answer is wrong.
    fn call<P: Print>(
        &mut self,
        out: &P,
        line: &[u8],
        pair: &Pair,
        wanted: Wanted<ask::Place>,
    ) -> io::Result<()> {
        self.work.begin(number(line, 52..58));
        let told = ask::window(pair, &mut self.work);
        let right = told.is_some_and(|told| wanted.is(told) && ask::kept(told, &self.work));
        if !right {
            pairs::tell(out, line, told)?;
        }
        self.tally.count(told, right);
        Ok(())
    }

    fn rounds<R: Print + AllocGlobal>(
        &mut self,
        rt: &R,
        line: &[u8],
        rounds: usize,
    ) -> io::Result<()> {
        for round in 0..rounds {
            let pair = pairs::make(rt.alloc(), line, round)?;
            let wanted = Wanted {
                found: Ok(ask::Place(every::tightest(&pair))),
                fold: None,
            };
            self.call(rt, line, &pair, wanted)?;
        }
        Ok(())
    }

    fn end_group<P: Print>(&mut self, out: &P, line: &[u8]) -> io::Result<()> {
        out.write_all(pairs::name(line))?;
        self.tally.report(out)?;
        self.tally = Tally::default();
        Ok(())
    }

    fn step<R: Print + AllocGlobal>(&mut self, rt: &R, line: &[u8]) -> io::Result<()> {
        match Command::of(line) {
            Some(Command::Ask) => {
                let pair = pairs::make(rt.alloc(), line, 0)?;
                self.call(rt, line, &pair, ask::wanted(line))
            }
            Some(Command::AskRandom(rounds)) => self.rounds(rt, line, rounds),
            Some(Command::EndGroup) => self.end_group(rt, line),
            None => Ok(()),
        }
    }
}

fn main(rt: HostRuntime) -> io::Result<()> {
    let alloc = rt.alloc();
    let mut bench = Bench {
        work: Lent::new(alloc, FILL, WORK_ROOM)?,
        tally: Tally::default(),
    };
    let mut input = BufReader::new(alloc, rt.reader())?;
    let mut line = [0u8; LINE];
    for _ in 0..MOST_LINES {
        if !read(&mut input, &mut line)? {
            break;
        }
        bench.step(&rt, field(&line, 0..TEXT))?;
    }
    Ok(())
}
