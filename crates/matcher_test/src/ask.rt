// The calls length and show, with the slices that a line says, and what they leave in the slices.
use matcher::Matched;
use std::alloc::{AllocError, Global};
use testing::answer::Fold;
use testing::input::number;
use testing::lent::Lent;
use testing::pairs;
use testing::pairs::{FILL, Found, Pair, WORK_ROOM};
use testing::slices::first;

// More places than any motif asks for.
const PLACES_ROOM: usize = 4100;

#[derive(Clone, Copy, Debug, PartialEq, Eq)]
pub enum Call {
    Length,
    Show,
}

// What a call found is the length of a prefix.
pub type Told = pairs::Told<usize>;

fn told(answer: Matched) -> Told {
    let prefix = answer?;
    Ok(Found {
        found: prefix.length,
        fold: Fold {
            arcs: prefix.fold.arcs,
            depth: prefix.fold.depth,
        },
    })
}

// The slices that calls write.
#[derive(Debug, Drop)]
pub struct Slices {
    places: Lent,
    work: Lent,
}

impl Slices {
    pub fn new(alloc: Global) -> Result<Slices, AllocError> {
        Ok(Slices {
            places: Lent::new(alloc, FILL, PLACES_ROOM)?,
            work: Lent::new(alloc, FILL, WORK_ROOM)?,
        })
    }

    // Makes a call, with as many places and entries of work as a line says; None where there are fewer.
    pub fn ask(&mut self, line: &[u8], pair: &Pair, call: Call) -> Option<Told> {
        let Pair { motif, molecule } = pair;
        self.places.begin(number(line, 52..58));
        self.work.begin(number(line, 59..65));
        if self.places.is_short() || self.work.is_short() {
            return None;
        }
        let work = self.work.part();
        Some(told(match call {
            Call::Length => matcher::length(&motif.lent(), &molecule.lent(), work),
            Call::Show => matcher::show(&motif.lent(), &molecule.lent(), self.places.part(), work),
        }))
    }

    // The first k places are an embedding of the first k bases, no places one of no bases.
    fn verified(&self, pair: &Pair, k: usize) -> bool {
        let Pair { motif, molecule } = pair;
        let prefix = strand::Strand {
            bases: first(&motif.bases, k),
            mates: first(&motif.mates, k),
        };
        let places = first(self.places.entries(), k);
        let answer = embedding::verify(&prefix, &molecule.lent(), places);
        answer.is_ok_and(|verified| verified.embeds)
    }

    // After a refusal no entry is changed; else none behind its part of the work or behind the places of the prefix, which are an embedding.
    pub fn right(&self, pair: &Pair, call: Call, told: Told) -> bool {
        match (told, call) {
            (Err(_), _) => self.places.kept_behind(0) && self.work.kept_behind(0),
            (Ok(_), Call::Length) => {
                self.places.kept_behind(0) && self.work.kept_behind(self.work.len())
            }
            (Ok(prefix), Call::Show) => {
                self.places.kept_behind(prefix.found)
                    && self.work.kept_behind(self.work.len())
                    && self.verified(pair, prefix.found)
            }
        }
    }
}
