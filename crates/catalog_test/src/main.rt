// Tests of the calls add, remove and query, by the lines of `catalog_testing`, which `tools/catalog_cases.py` makes.
#![tactic(auto)]

use catalog_testing::{Bench, LINE};
use std::io;
use std::io::BufReader;
use testing::input::{MOST_LINES, read};

fn step<R: Print + AllocGlobal>(rt: &R, line: &[u8], bench: &mut Bench) -> io::Result<()> {
    if line.first() == Some(&b'G') {
        return bench.counts.report(rt, line);
    }
    bench.act(rt, line)
}

fn main(rt: HostRuntime) -> io::Result<()> {
    let alloc = rt.alloc();
    let mut bench = Bench::new(alloc, 0)?;
    let mut input = BufReader::new(alloc, rt.reader())?;
    let mut line = [0u8; LINE];
    for _ in 0..MOST_LINES {
        if !read(&mut input, &mut line)? {
            break;
        }
        step(&rt, &line, &mut bench)?;
    }
    Ok(())
}
