// The longest closed prefix that embeds, by trying every list of rising places.
use super::slices::{entry, position_at, set};
use strand::Strand;

// No arc leaves the first k positions.
fn closed(mates: &[u16], k: usize) -> bool {
    (0..k).all(|y| position_at(mates, y).is_some_and(|mate| mate < k))
}

// A position whose mate is a may go to one whose mate is b, after the places of the first i positions: an arc to one of them exactly where
// the places are an arc.
fn arcs_fit(a: Option<usize>, b: Option<usize>, places: &[u16], i: usize) -> bool {
    (0..i).all(|x| (a == Some(x)) == (b == position_at(places, x)))
}

fn is_t_or_u(base: u8) -> bool {
    matches!(base, b'T' | b'U')
}

// 02, (vi): "the same byte or both are among T and U".
pub fn bases_match(a: u8, b: u8) -> bool {
    a == b || is_t_or_u(a) && is_t_or_u(b)
}

// Position i may go to v after the places of those before it: a base that matches, and arcs that fit.
fn fits(motif: &Strand, molecule: &Strand, places: &[u16], i: usize, v: usize) -> bool {
    match (motif.bases.get(i), molecule.bases.get(v)) {
        (Some(a), Some(b)) => {
            bases_match(*a, *b)
                && arcs_fit(
                    position_at(motif.mates, i),
                    position_at(molecule.mates, v),
                    places,
                    i,
                )
        }
        _ => false,
    }
}

// The longest closed prefix that is reached from the places of the first i positions, when later ones go to v or behind it.
pub fn longest(motif: &Strand, molecule: &Strand, places: &mut [u16], i: usize, v: usize) -> usize {
    let here = if closed(motif.mates, i) { i } else { 0 };
    if molecule.bases.len() <= v || motif.bases.len() <= i {
        return here;
    }
    let behind = longest(motif, molecule, places, i, v + 1);
    if !fits(motif, molecule, places, i, v) {
        return behind;
    }
    set(places, i, entry(v));
    behind.max(longest(motif, molecule, places, i + 1, v + 1))
}
