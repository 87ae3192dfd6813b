// The table's rows 1 to 7, written out word by word; the number of arcs, and the depth by the arcs around each base.
use testing::answer::{Fold, Refusal};
use testing::slices::position_at;

fn is_letter(base: u8) -> bool {
    matches!(base, b'A' | b'C' | b'G' | b'T' | b'U')
}

// Two arcs cross when a < i < b < j for arcs (a, b) and (i, j).
fn cross(a: usize, b: usize, i: usize, j: usize) -> bool {
    a < i && i < b && b < j
}

// Some arc (a, b) crosses the arc (i, j).
fn is_crossed(mates: &[u16], i: usize, j: usize) -> bool {
    mates
        .iter()
        .enumerate()
        .any(|(a, b)| cross(a, usize::from(*b), i, j))
}

// The lowest position at which a row applies makes a refusal.
fn holds_nowhere(row: usize, side: usize, place: Option<usize>) -> Result<(), Refusal> {
    match place {
        None => Ok(()),
        Some(place) => Err(Refusal { row, side, place }),
    }
}

// The rows 4 to 7 in turn.
fn by_position(bases: &[u8], mates: &[u16], side: usize) -> Result<(), Refusal> {
    let n = bases.len();
    let no_letter = bases.iter().position(|base| !is_letter(*base));
    holds_nowhere(4, side, no_letter)?;
    let outside = mates.iter().position(|mate| n <= usize::from(*mate));
    holds_nowhere(5, side, outside)?;
    let one_sided = mates.iter().enumerate().position(|(i, mate)| position_at(
        mates,
        usize::from(*mate),
    ) != Some(i));
    holds_nowhere(6, side, one_sided)?;
    let crossed = mates
        .iter()
        .enumerate()
        .position(|(i, mate)| is_crossed(mates, i, usize::from(*mate)));
    holds_nowhere(7, side, crossed)
}

// The answer for a strand of one side whose length has limits.
pub fn answer(
    bases: &[u8],
    mates: &[u16],
    side: usize,
    least: usize,
    greatest: usize,
) -> Result<(), Refusal> {
    let at_start = |row| Err(Refusal {
        row,
        side,
        place: 0,
    });
    if bases.len() != mates.len() {
        return at_start(1);
    }
    if bases.len() < least {
        return at_start(2);
    }
    if bases.len() > greatest {
        return at_start(3);
    }
    by_position(bases, mates, side)
}

// How many arcs have i between their ends, or as one of them.
fn around(mates: &[u16], i: usize) -> usize {
    mates
        .iter()
        .enumerate()
        .filter(|(a, b)| *a < usize::from(**b) && *a <= i && i <= usize::from(**b))
        .count()
}

// The most arcs around a base.
fn depth(mates: &[u16]) -> usize {
    (0..mates.len())
        .map(|i| around(mates, i))
        .max()
        .unwrap_or(0)
}

// How many bases have a greater mate.
fn arcs(mates: &[u16]) -> usize {
    mates
        .iter()
        .enumerate()
        .filter(|(i, mate)| *i < usize::from(**mate))
        .count()
}

// The answer of check.
pub fn check(bases: &[u8], mates: &[u16]) -> Result<Fold, Refusal> {
    answer(bases, mates, 1, 1, 4096)?;
    Ok(Fold {
        arcs: arcs(mates),
        depth: depth(mates),
    })
}
