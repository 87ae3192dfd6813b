// The definition of an embedding, written out.
use testing::brute::bases_match;
use testing::pairs::Pair;
use testing::slices::position_at;

// Position y may lie at v: v lies in the molecule, and its base matches.
fn base_fits(pair: &Pair, y: usize, v: usize) -> bool {
    match (pair.motif.bases.get(y), pair.molecule.bases.get(v)) {
        (Some(a), Some(b)) => bases_match(*a, *b),
        _ => false,
    }
}

// x before y at the places u and v: the places rise, and x and y are an arc exactly when their places are.
fn pair_fits(pair: &Pair, x: usize, u: usize, y: usize, v: usize) -> bool {
    let bonded = position_at(&pair.motif.mates, x) == Some(y);
    let places_bonded = position_at(&pair.molecule.mates, u) == Some(v);
    u < v && bonded == places_bonded
}

// Position y at v fits with every position before it.
fn fits_at(pair: &Pair, places: &[u16], y: usize, v: usize) -> bool {
    base_fits(pair, y, v)
        && places
            .iter()
            .enumerate()
            .take(y)
            .all(|(x, u)| pair_fits(pair, x, usize::from(*u), y, v))
}

// Every two positions fit.
pub fn fits(pair: &Pair, places: &[u16]) -> bool {
    places
        .iter()
        .enumerate()
        .all(|(y, v)| fits_at(pair, places, y, usize::from(*v)))
}
