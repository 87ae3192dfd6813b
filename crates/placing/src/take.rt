// What of the motif an arc of the molecule takes: what goes inside it and what to its ends, and the places that are written for its ends.
ghost use Rattle.std.specs.Prelude.{◌≡◌, ◌+◌, ◌*◌, ◌≤◌, ◌<◌, length};
ghost use Rattle.lists.specs.Vocabulary.{nth};
ghost use Rattle.embedding.specs.Row.{Closed, unit_at, over_at};
ghost use Rattle.rows.specs.Motifs.{SegmentOf};
ghost use Rattle.rows.specs.Rows.{matches};
ghost use Rattle.arcs.specs.Pairs.{AllStartsIn};
ghost use Rattle.placing.specs.Placing.{Takes, PlacePut, Ended};
ghost use Rattle.placing.specs.Pairs.{TakenIn, KeptAroundIn};

use crate::path;
use arcs::pair::Pair;
use rows::motif::Motif;
use rows::row;

// What an arc l, r takes of a segment of the motif: the span from..to goes inside it, the position before it to l if that is one of the segment, the one
// after it to r if next is past `to`.
#[derive(Clone, Copy)]
pub struct ArcTake {
    pub from: usize,
    pub to: usize,
    pub next: usize,
}

// How far an arc with the bases x and y takes the segment from..to with its left end, from its inner row's entry for from + 1: 0 where it takes nothing so.
fn with_left_end(motif: &Motif, from: usize, to: usize, x: u8, y: u8, next: u16) -> usize
    requires segment { SegmentOf motif.now from to }
    requires from_lt_to { from < to }
    ensures { result ≡ over_at (matches motif.now.bases.now x) (matches motif.now.bases.now y) (nth motif.now.mates.now) to next from }
{
    let left = letters::letter_class(x) as u16;
    let right = letters::letter_class(y) as u16;
    row::over_entry(
        motif.tables[from],
        left,
        right,
        motif.mates[from],
        from as u16,
        to as u16,
        next,
    ) as usize
}

// What an arc with the bases x and y takes of the segment from..to, from its inner row's entries for `from` and from + 1.
fn choose_take(motif: &Motif, from: usize, to: usize, x: u8, y: u8, here: u16, next: u16) -> ArcTake
    requires segment { SegmentOf motif.now from to }
    requires from_lt_to { from < to }
    ensures { Takes (matches motif.now.bases.now x) (matches motif.now.bases.now y) (nth motif.now.mates.now) from to here next result }
{
    let both = row::unit(motif.bases, motif.mates, here as usize, to, y);
    let over = with_left_end(motif, from, to, x, y, next);
    let mate = motif.mates[from] as usize;
    let next = next as usize;
    if over <= both {
        ArcTake {
            from,
            to: here as usize,
            next: both,
        }
    } else if mate <= from {
        ArcTake {
            from: from + 1,
            to: next,
            next,
        }
    } else {
        ArcTake {
            from: from + 1,
            to: mate,
            next: mate + 1,
        }
    }
}

// What the arc l, r takes of the segment from..to, from its inner row's entries for `from` and from + 1: the places of the arc's ends are written.
fn write_take(
    pair: &Pair,
    from: usize,
    to: usize,
    l: usize,
    r: usize,
    here: u16,
    next: u16,
    places: &mut [u16],
) -> ArcTake
    requires from_lt_to { (from < to) × ((to ≤ length pair.now.motif.bases.now) × (to ≤ length places.old)) }
    requires l_lt_r { (l < r) × (r < length pair.now.q.now) }
    ensures takes { Takes (matches pair.now.motif.bases.now (nth pair.now.q.now l)) (matches pair.now.motif.bases.now (nth pair.now.q.now r))
        (nth pair.now.motif.mates.now) from to here next result }
    ensures ended { Ended from l r result places.old places.new }
{
    let t = choose_take(&pair.motif, from, to, pair.q[l], pair.q[r], here, next);
    put(from, t.from, l, places);
    put(t.to, t.next, r, places);
    t
}

// What the arc l, r takes of the segment from..to: the places of the arc's ends are written.
pub fn take_at(
    pair: &Pair,
    from: usize,
    to: usize,
    l: usize,
    r: usize,
    places: &mut [u16],
    work: &mut [u16],
) -> ArcTake
    requires segment { SegmentOf pair.now.motif from to }
    requires from_lt_to { (from < to) × (to ≤ length places.old) }
    requires l_lt_r { (l < r) × ((r < length pair.now.q.now) × (nth pair.now.qm.now l ≡ r)) }
    requires room { 23 * (length pair.now.motif.bases.now + 1) ≤ length work.old }
    requires all_starts { AllStartsIn pair.now }
    ensures taken { TakenIn pair.now from to l r result }
    ensures ended { Ended from l r result places.old places.new }
{
    let end = to.min(from + (r + 1 - l));
    arcs::inner_row(pair, from, end, l, r, pair.q.len(), work);
    write_take(pair, from, end, l, r, work[from], work[from + 1], places)
}

// As `take_at`, where the segment is closed and the arc is the kept arc or holds it: the inner row is made from the kept one, which stays.
pub fn take_kept(
    pair: &Pair,
    from: usize,
    to: usize,
    l: usize,
    r: usize,
    kept: usize,
    places: &mut [u16],
    work: &mut [u16],
) -> ArcTake
    requires segment { SegmentOf pair.now.motif from to }
    requires closed { Closed (nth pair.now.motif.mates.now) from to }
    requires from_lt_to { (from < to) × (to ≤ length places.old) }
    requires l_lt_r { (l < r) × ((r < length pair.now.q.now) × (nth pair.now.qm.now l ≡ r)) }
    requires kept_around { KeptAroundIn pair.now from to kept work.old }
    requires room { 24 * (length pair.now.motif.bases.now + 1) ≤ length work.old }
    requires all_starts { AllStartsIn pair.now }
    ensures taken { TakenIn pair.now from to l r result }
    ensures ended { Ended from l r result places.old places.new }
    ensures kept_around_2 { KeptAroundIn pair.now result.from result.to kept work.new }
{
    path::keep(pair, from, to, l, r, kept, work);
    let w = pair.motif.bases.len() + 1;
    write_take(
        pair,
        from,
        to,
        l,
        r,
        work[w + from],
        work[w + (from + 1)],
        places,
    )
}

// Writes the place of position `from` where the unbonded base i takes it, and gives where the motif goes on. It takes slices, since it asks less of them than
// a pair says: a motif with as many mates as bases.
pub fn put_base(
    p: &[u8],
    pm: &[u16],
    q: &[u8],
    from: usize,
    to: usize,
    i: usize,
    places: &mut [u16],
) -> usize
    requires pm_len { (length pm.now ≡ length p.now) × (to ≤ length p.now) }
    requires from_lt_to { (from < to) × (to ≤ length places.old) }
    requires i_in_bounds { (i < length q.now) × (i < 4096) }
    ensures { (result ≡ unit_at (matches p.now (nth q.now i)) (nth pm.now) to from) × PlacePut from result i places.old places.new }
{
    let k = row::unit(p, pm, from, to, q[i]);
    put(from, k, i, places);
    k
}

// Writes the place i of position j, if k is past j.
fn put(j: usize, k: usize, i: usize, places: &mut [u16])
    requires { (j < k → j < length places.old) × (i < 4096) }
    ensures { PlacePut j k i places.old places.new }
{
    if j < k {
        places[j] = i as u16;
    }
}
