// Tests of verify: the cases of its input, and random nested pairs against the definition written out in `naive`. An answer is yes or no, with the number
// of arcs and the depth of the molecule, or refused with number, side and place.
#![tactic(auto)]

use std::io;

mod ask;
mod cases;
mod naive;
mod random;

fn main(rt: HostRuntime) -> io::Result<()> {
    cases::run(&rt)?;
    random::run(&rt)
}
