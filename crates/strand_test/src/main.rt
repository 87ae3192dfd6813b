// Tests of the crate strand: the cases of its input (the table's rows with their examples, borders, the order of the rows, lowest and crossing
// places, arcs and depths), and random strands against the definition written out in `naive`. An answer is accepted, of check with the number of arcs
// and the depth, or refused with number, side and place.
#![tactic(auto)]

use std::io;

mod ask;
mod cases;
mod make;
mod naive;
mod random;

fn main(rt: HostRuntime) -> io::Result<()> {
    cases::run(&rt)?;
    random::run(&rt)
}
