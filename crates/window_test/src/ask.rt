// The call window, the answer that a line wants, and what a call leaves in the work slice.
use std::fmt;
use testing::answer::{Fold, Refusal};
use testing::input::{digit_at, number};
use testing::lent::Lent;
use testing::pairs;
use testing::pairs::{Found, Pair, Wanted};
use window::{Window, Windowed};

// The tightest window, if there is one. In digits it is 1, its start and its length, and 0 for none.
#[derive(Clone, Copy, Debug, PartialEq, Eq)]
pub struct Place(pub Option<Window>);

impl fmt::Display for Place {
    fn fmt<W: fmt::Write>(&self, f: &mut fmt::Formatter<W>) -> fmt::Result {
        match self.0 {
            Some(window) => write!(f, "1{:04}{:04}", window.start, window.length),
            None => write!(f, "0"),
        }
    }
}

pub type Told = pairs::Told<Place>;

fn told(answer: Windowed) -> Told {
    let tightest = answer?;
    Ok(Found {
        found: Place(tightest.window),
        fold: Fold {
            arcs: tightest.fold.arcs,
            depth: tightest.fold.depth,
        },
    })
}

// Makes the call; None where it asks for more entries than there are.
pub fn window(pair: &Pair, work: &mut Lent) -> Option<Told> {
    if work.is_short() {
        return None;
    }
    let Pair { motif, molecule } = pair;
    let answer = window::window(&motif.lent(), &molecule.lent(), work.part());
    Some(told(answer))
}

// After a refusal no entry is changed; else none behind its part of the work slice.
pub fn kept(told: Told, work: &Lent) -> bool {
    match told {
        Ok(_) => work.kept_behind(work.len()),
        Err(_) => work.kept_behind(0),
    }
}

// The refusal or the window that the line wants.
fn wanted_place(line: &[u8]) -> Result<Place, Refusal> {
    let window = Window {
        start: number(line, 71..75),
        length: number(line, 76..80),
    };
    match number(line, 59..61) {
        0 if digit_at(line, 69) == 0 => Ok(Place(None)),
        0 => Ok(Place(Some(window))),
        row => Err(Refusal {
            row,
            side: number(line, 62..63),
            place: number(line, 64..68),
        }),
    }
}

pub fn wanted(line: &[u8]) -> Wanted<Place> {
    let fold = Fold {
        arcs: number(line, 81..85),
        depth: number(line, 86..90),
    };
    Wanted {
        found: wanted_place(line),
        fold: Some(fold),
    }
}
