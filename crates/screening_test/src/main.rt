// Tests of the crate screening. The input has lines of 14 bytes: a letter, two numbers of five digits. `B d n` writes n times A without bonds into
// block d, `Z d` empties it, `S i v` sets byte i to v, and `R n k` screens the first n bytes with buffer k too short (1 the output, 2
// the cache, 3 the work, 4 the hits, 0 none); its line is
// written, then what the call answers. tools/screening_cases.py makes the lines and what they must give.
#![tactic(auto)]

use std::alloc::{AllocError, Global};
use std::io;
use std::io::Read;
use testing::input::{field, number};
use testing::slices::{byte, first, set};
use testing::strands::Strand;

// The bytes of a line, with its end.
const LINE: usize = 14;

// How many lines are read; behind them the first come again.
const MOST_LINES: usize = 65536;

// The most bases that are written.
const MOST_BASES: u16 = 160;

// Which buffer is too short.
#[derive(Clone, Copy, Debug, PartialEq, Eq)]
enum Short {
    Output,
    Cache,
    Work,
    Hits,
    Nothing,
}

#[derive(Clone, Copy, Debug)]
enum Command {
    Put(usize, usize),
    Zero(usize),
    SetByte(usize, u8),
    Screen(usize, Short),
}

impl Command {
    fn of(line: &[u8]) -> Option<Command> {
        let a = number(line, 2..7);
        let b = number(line, 8..13);
        match line.first()? {
            b'B' => Some(Command::Put(a, b)),
            b'Z' => Some(Command::Zero(a)),
            b'S' => Some(Command::SetByte(a, byte(b))),
            _ => Some(Command::Screen(a, Short::of(b))),
        }
    }
}

impl Short {
    // The buffer of a number.
    fn of(number: usize) -> Short {
        match number {
            1 => Short::Output,
            2 => Short::Cache,
            3 => Short::Work,
            4 => Short::Hits,
            _ => Short::Nothing,
        }
    }
}

// The buffers of a screening.
#[derive(Debug, Drop)]
struct Buffers {
    output: Vec<u8>,
    cache: Vec<u8>,
    work: Vec<u16>,
    hits: Vec<u16>,
}

impl Buffers {
    // With other bytes than zero in them, and an entry too few in one.
    fn new(alloc: Global, short: Short) -> Result<Buffers, AllocError> {
        let mut buffers = Buffers {
            output: vec![in alloc; 7; 202]?,
            cache: vec![in alloc; 7; 512]?,
            work: vec![in alloc; 0; 9024]?,
            hits: vec![in alloc; 7; 64]?,
        };
        match short {
            Short::Output => buffers.output.truncate(201),
            Short::Cache => buffers.cache.truncate(511),
            Short::Work => buffers.work.truncate(9023),
            Short::Hits => buffers.hits.truncate(63),
            Short::Nothing => {}
        }
        Ok(buffers)
    }

    // What the call writes, if there is room.
    fn screen(&mut self, input: &[u8]) -> Option<&[u8]> {
        let n = screening::screen(
            input,
            &mut self.output,
            &mut self.cache,
            &mut self.work,
            &mut self.hits,
        )?;
        Some(first(&self.output, n))
    }
}

fn screen<R: Print + AllocGlobal>(rt: &R, input: &[u8], short: Short) -> io::Result<()> {
    let mut buffers = Buffers::new(rt.alloc(), short)?;
    rt.write_all(buffers.screen(input).unwrap_or(b"no room\n"))
}

// So many bases without bonds, or the most.
fn unbonded(alloc: Global, n: usize) -> Result<Strand, AllocError> {
    let n = u16::try_from(n).unwrap_or(MOST_BASES).min(MOST_BASES);
    Ok(Strand {
        bases: vec![in alloc; b'A'; usize::from(n)]?,
        mates: (0..n).collect(alloc)?,
    })
}

fn step<R: Print + AllocGlobal>(rt: &R, line: &[u8], image: &mut Vec<u8>) -> io::Result<()> {
    match Command::of(line) {
        Some(Command::Put(d, n)) => {
            let strand = unbonded(rt.alloc(), n)?;
            buffer::put_molecule(image, d, &strand.lent());
        }
        Some(Command::Zero(d)) => {
            buffer::zero_at(image, d);
        }
        Some(Command::SetByte(i, x)) => set(image, i, x),
        Some(Command::Screen(n, short)) => {
            rt.write_all(line)?;
            screen(rt, first(image, n), short)?;
        }
        None => {}
    }
    Ok(())
}

fn main(rt: HostRuntime) -> io::Result<()> {
    let alloc = rt.alloc();
    let mut image = vec![in alloc; 0; 33281]?;
    let mut text = Vec::new(alloc);
    rt.reader().read_to_end(&mut text)?;
    for i in 0..text.len() / LINE {
        let at = i % MOST_LINES * LINE;
        step(&rt, field(&text, at..at + LINE), &mut image)?;
    }
    Ok(())
}
