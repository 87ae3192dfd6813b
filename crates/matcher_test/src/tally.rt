// Counts of calls, and their report.
use super::ask::Told;
use std::io;
use testing::answer::Fold;
use testing::pairs::Count;

// How many calls were made, refused, answered with the whole motif or with no prefix; the arcs and the depths that they answered; how many were wrong.
#[derive(Clone, Copy, Debug, Default)]
pub struct Tally {
    calls: Count,
    refused: Count,
    whole: Count,
    empty: Count,
    arcs: Count,
    depths: Count,
    wrong: Count,
}

impl Tally {
    // One more call, on a motif of so many bases; None for one that was not made.
    pub fn count(&mut self, told: Option<Told>, motif: usize, right: bool) {
        let prefix = match told {
            Some(Ok(prefix)) => Some(prefix),
            _ => None,
        };
        let found = prefix.map(|prefix| prefix.found);
        let fold = prefix.map_or(Fold { arcs: 0, depth: 0 }, |prefix| prefix.fold);
        self.calls.add(1);
        self.refused.add(usize::from(matches!(told, Some(Err(_)))));
        self.whole.add(usize::from(found == Some(motif)));
        self.empty.add(usize::from(found == Some(0)));
        self.arcs.add(fold.arcs);
        self.depths.add(fold.depth);
        self.wrong.add(usize::from(!right));
    }

    pub fn report<P: Print>(&self, out: &P) -> io::Result<()> {
        print!(out; ": calls {}, refused {}", self.calls, self.refused)?;
        print!(out; ", whole motif {}, no prefix {}", self.whole, self.empty)?;
        println!(out;
            ", arcs {}, depths {}, wrong {}",
            self.arcs, self.depths, self.wrong
        )
    }
}
