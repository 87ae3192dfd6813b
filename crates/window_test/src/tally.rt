// Counts of calls, and their report.
use super::ask::Told;
use std::io;
use testing::answer::Fold;
use testing::pairs::{Count, Found};

// How many calls were made, refused, answered with a window or with none; the starts, lengths, arcs and depths that they answered; how many were wrong.
#[derive(Clone, Copy, Debug, Default)]
pub struct Tally {
    calls: Count,
    refused: Count,
    found: Count,
    nowhere: Count,
    starts: Count,
    lengths: Count,
    arcs: Count,
    depths: Count,
    wrong: Count,
}

impl Tally {
    // A window that was found counts with its start and length; so does a call that was not made, with neither.
    fn count_place(&mut self, told: Option<Told>) {
        let (found, window) = match told {
            Some(Ok(Found { found, .. })) => (found.0.is_some(), found.0),
            Some(Err(_)) => (false, None),
            None => (true, None),
        };
        let nowhere = matches!(told, Some(Ok(_))) && !found;
        self.found.add(usize::from(found));
        self.nowhere.add(usize::from(nowhere));
        self.starts.add(window.map_or(0, |window| window.start));
        self.lengths.add(window.map_or(0, |window| window.length));
    }

    // One more call; None for one that was not made.
    pub fn count(&mut self, told: Option<Told>, right: bool) {
        let fold = match told {
            Some(Ok(Found { fold, .. })) => fold,
            _ => Fold { arcs: 0, depth: 0 },
        };
        self.calls.add(1);
        self.refused.add(usize::from(matches!(told, Some(Err(_)))));
        self.count_place(told);
        self.arcs.add(fold.arcs);
        self.depths.add(fold.depth);
        self.wrong.add(usize::from(!right));
    }

    pub fn report<P: Print>(&self, out: &P) -> io::Result<()> {
        print!(out; ": calls {}, refused {}", self.calls, self.refused)?;
        print!(out; ", found {}, nowhere {}", self.found, self.nowhere)?;
        print!(out; ", starts {}, lengths {}", self.starts, self.lengths)?;
        println!(out;
            ", arcs {}, depths {}, wrong {}",
            self.arcs, self.depths, self.wrong
        )
    }
}
