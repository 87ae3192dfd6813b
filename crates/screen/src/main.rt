// The screen program: it reads the input from standard input, calls screening::screen, and writes the output. Where a read fails it prints nothing,
// for an input that is cut short would give a wrong hit list. Where a write fails or takes only a part, the output is not complete. Both are told by
// one line on standard error, which names no cause, and by exit status 1 (docs/DECISIONS.md, Failed reads and writes).
#![tactic(auto)]

ghost use Rattle.std.specs.Prelude.{IfOk};
ghost use Rattle.screen.specs.Counts.{IsPrefixLen};

use std::io;
use std::io::Read;
use std::process::ExitCode;

// The longest input has 33,280 bytes; one more byte is read to tell a longer one.
const INPUT_ROOM: usize = 33281;

// Room for any output, the cache block, the work of any motif's query, and the hits of the longest catalog, as `screen` asks for.
const OUT_ROOM: usize = 202;

const CACHE_ROOM: usize = 512;

const WORK_ROOM: usize = 9024;

const HITS_ROOM: usize = 64;

fn input_buffer() -> [u8; INPUT_ROOM] {
    [0u8; INPUT_ROOM]
}

fn out_buffer() -> [u8; OUT_ROOM] {
    [0u8; OUT_ROOM]
}

fn cache_buffer() -> [u8; CACHE_ROOM] {
    [0u8; CACHE_ROOM]
}

fn work_buffer() -> [u16; WORK_ROOM] {
    [0u16; WORK_ROOM]
}

fn hits_buffer() -> [u16; HITS_ROOM] {
    [0u16; HITS_ROOM]
}

// Reads until the input ends, the buffer is full or a read fails; how many bytes were read.
fn read_input<R: Read>(from: &mut R, input: &mut [u8]) -> io::Result<usize>
    ensures { IfOk result (λ n. IsPrefixLen n input.new) }
{
    let mut n = 0;
    while n < input.len() {
        let more = from.read(&mut input[n..])?;
        if more == 0 {
            break;
        }
        n += more;
    }
    Ok(n)
}

// Tells a failure by a line on standard error.
fn failed<R: Eprint>(rt: &R, line: &str) -> ExitCode {
    let _ = rt.eprintln(line);
    ExitCode::FAILURE
}

// Writes the first n bytes.
fn write<R: Print + Eprint>(rt: &R, out: &[u8], n: usize) -> ExitCode {
    let a = 0;
    if n <= out.len() {
        if rt.write_all(&out[a..n]).is_err() {
            return failed(rt, "screen: standard output cannot be written");
        }
    }
    ExitCode::SUCCESS
}

// Writes the output of the input, with the buffers of the call.
fn answer<R: Print + Eprint>(
    rt: &R,
    input: &[u8],
    out: &mut [u8],
    cache: &mut [u8],
    work: &mut [u16],
    hits: &mut [u16],
) -> ExitCode {
    if let Some(n) = screening::screen(input, out, cache, work, hits) {
        return write(rt, out, n);
    }
    ExitCode::SUCCESS
}

// The same with buffers of its own.
fn run<R: Print + Eprint>(rt: &R, input: &[u8]) -> ExitCode {
    let mut out = out_buffer();
    let mut cache = cache_buffer();
    let mut work = work_buffer();
    let mut hits = hits_buffer();
    answer(rt, input, &mut out, &mut cache, &mut work, &mut hits)
}

fn main(rt: HostRuntime) -> ExitCode {
    let mut input = input_buffer();
    match read_input(&mut rt.stdin(), &mut input) {
        Ok(n) => run(&rt, &input[..n]),
        Err(_) => failed(&rt, "screen: standard input cannot be read"),
    }
}
