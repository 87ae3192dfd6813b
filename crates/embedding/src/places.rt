// Whether places are an embedding of the whole motif, in O(m log m): order and range, bases, arcs.
ghost use Rattle.std.specs.Prelude.{◌≡◌, true, false, ◌+◌, ◌<◌, length};
ghost use Rattle.lists.specs.Vocabulary.{nth};
ghost use Rattle.lists.proofs.ListLaws.{Tells};
ghost use Rattle.strand.specs.Strands.{Inside};
ghost use Rattle.strand.specs.Lent.{on_pair};
ghost use Rattle.embedding.specs.Longest.{EmbedsAt};
ghost use Rattle.embedding.specs.Places.{Ordered, Lettered, Has, ArcKept, ArcsKept};

use strand::Strand;

// Whether the places rise and lie in the molecule.
fn in_order(places: &[u16], n: usize) -> bool
    ensures { Tells result (Ordered places.now n) }
{
    for (i, place) in places.iter().enumerate() {
        let x = usize::from(*place);
        if n <= x {
            return false;
        }
        if 0 < i && x <= usize::from(places[i - 1]) {
            return false;
        }
    }
    true
}

// Whether each base matches the base at its place.
fn same_letters(p: &[u8], q: &[u8], places: &[u16]) -> bool
    requires places_len { length places.now ≡ length p.now }
    requires ordered { Ordered places.now (length q.now) }
    ensures { Tells result (Lettered p.now q.now places.now) }
{
    for (i, place) in places.iter().enumerate() {
        if !letters::letters_match(p[i], q[usize::from(*place)]) {
            return false;
        }
    }
    true
}

// Whether a position has the place x, by binary search. The number n of bases is for the contract alone.
fn has_place(places: &[u16], n: usize, x: u16) -> bool
    requires { Ordered places.now n }
    ensures { Tells result (Has places.now x) }
{
    places.binary_search(&x).is_ok()
}

// Whether the arc that begins at position i, if any, and no other, goes to an arc that begins at its place.
fn arc_kept(pm: &[u16], qm: &[u16], places: &[u16], i: usize) -> bool
    requires places_len { length places.now ≡ length pm.now }
    requires ordered { Ordered places.now (length qm.now) }
    requires i_in_bounds { (i < length pm.now) × (nth pm.now i < length pm.now) }
    ensures { Tells result (ArcKept pm.now qm.now places.now i) }
{
    let k = pm[i] as usize;
    let at = places[i];
    let x = qm[at as usize];
    if i < k {
        return x == places[k];
    }
    if x <= at {
        return true;
    }
    !has_place(places, qm.len(), x)
}

// Whether two positions are an arc exactly when their places are.
fn same_arcs(pm: &[u16], qm: &[u16], places: &[u16]) -> bool
    requires places_len { length places.now ≡ length pm.now }
    requires ordered { Ordered places.now (length qm.now) }
    requires inside { Inside (nth pm.now) (length pm.now) }
    ensures { Tells result (ArcsKept pm.now qm.now places.now) }
{
    for i in 0..places.len() {
        if !arc_kept(pm, qm, places, i) {
            return false;
        }
    }
    true
}

// Whether the places, one for each base, are an embedding. The call verify sees to what it asks.
pub(crate) fn is_embedding(motif: &Strand, molecule: &Strand, places: &[u16]) -> bool
    requires places_len { length places.now ≡ length motif.now.bases.now }
    requires motif_len { length motif.now.mates.now ≡ length motif.now.bases.now }
    requires molecule_len { length molecule.now.mates.now ≡ length molecule.now.bases.now }
    requires inside { Inside (nth motif.now.mates.now) (length motif.now.mates.now) }
    ensures { Tells result (on_pair EmbedsAt motif.now molecule.now places.now) }
{
    if !in_order(places, molecule.bases.len()) {
        return false;
    }
    if !same_letters(motif.bases, molecule.bases, places) {
        return false;
    }
    same_arcs(motif.mates, molecule.mates, places)
}
