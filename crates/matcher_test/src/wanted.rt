// The answer that is wanted of a call.
use testing::answer::{Fold, Refusal};
use testing::brute;
use testing::input::number;
use testing::pairs::{Pair, Wanted};

// What a line says; a side without a row is no answer.
pub fn of_line(line: &[u8]) -> Wanted<usize> {
    let place = number(line, 70..76) % 10000;
    let found = match (number(line, 65..67), number(line, 68..69)) {
        (0, 0) => Ok(place),
        (row, side) => Err(Refusal { row, side, place }),
    };
    let fold = Fold {
        arcs: number(line, 77..81),
        depth: number(line, 82..86),
    };
    Wanted {
        found,
        fold: Some(fold),
    }
}

// By brute force, for motifs of up to 16 bases.
pub fn of_pair(pair: &Pair) -> Wanted<usize> {
    let mut places = [0u16; 16];
    Wanted {
        found: Ok(brute::longest(&pair.motif.lent(), &pair.molecule.lent(), &mut places, 0, 0)),
        fold: None,
    }
}
