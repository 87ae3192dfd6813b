// The tree of arcs of the molecule: the longest arc of a stretch, and the row inside an arc by a walk over the tree, heavy child first.
#![tactic(auto)]

pub mod bounds;
pub mod pair;

ghost use Rattle.std.specs.Prelude.{◌≡◌, true, ℕ, ◌+◌, ◌-◌, ◌*◌, ◌≤◌, ◌<◌, min, length};
ghost use Rattle.lists.specs.Vocabulary.{nth};
ghost use Rattle.letters.specs.Letters.{is_letter};
ghost use Rattle.strand.specs.Strands.{Nested};
ghost use Rattle.refusals.specs.Rules.{molecule_side};
ghost use Rattle.embedding.specs.Row.{arc_at};
ghost use Rattle.rows.specs.Rows.{Remade, matches};
ghost use Rattle.rows.specs.Motifs.{SegmentOf, bound_of, last_of};
ghost use Rattle.arcs.specs.Arcs.{Sealed, Heavy, Room, LightRoom};
ghost use Rattle.arcs.specs.Pairs.{BoundsIn, RowIn, PutBefore, KeptIn};

use pair::Pair;
use rows::{row, tables};

// The mate of a position.
pub fn mate(qm: &[u16], i: usize) -> usize
    requires { i < length qm.now }
    ensures { result ≡ nth qm.now i }
{
    qm[i] as usize
}

// The left end of the first longest arc in lo..hi, or hi if there is none, as `Heavy` says. It looks only at arcs that lie in no other: by a while, which
// goes on behind each arc.
pub fn heaviest(qm: &[u16], lo: usize, hi: usize) -> usize
    requires nested { Nested (nth qm.now) (length qm.now) }
    requires lo_le_hi { (lo ≤ hi) × (hi ≤ length qm.now) }
    requires sealed { Sealed qm.now lo hi }
    ensures { Heavy qm.now lo hi result }
{
    let mut best = hi;
    let mut size = 0;
    let mut l = lo;
    while l < hi {
        let r = mate(qm, l);
        if l < r {
            if size < r - l {
                best = l;
                size = r - l;
            }
            l = r;
        }
        l += 1;
    }
    best
}

// Closes the arc l, r: its row in the place of its inner row, for the starts up to the bound at l.
fn close(pair: &Pair, from: usize, to: usize, l: usize, r: usize, work: &mut [u16])
    requires segment { SegmentOf pair.now.motif from to }
    requires l_lt_r { (l < r) × (r < length pair.now.q.now) }
    requires l_room { (5 * (length pair.now.motif.bases.now + 1) + l < length pair.now.motif.tables.now) × (from ≤ bound_of pair.now.motif l) }
    requires room { 2 * (length pair.now.motif.bases.now + 1) ≤ length work.old }
    requires by_index { (j : ℕ) → from ≤ j → j ≤ last_of pair.now.motif to l → (j ≤ nth work.old j) × (nth work.old j ≤ to) }
    ensures { Remade (λ j. arc_at (matches pair.now.motif.bases.now (nth pair.now.q.now l)) (matches pair.now.motif.bases.now (nth pair.now.q.now r))
        (nth pair.now.motif.mates.now) to (nth work.old j) (nth work.old (j + 1)) j) work.old work.new from
        (min (last_of pair.now.motif to l + 1) to) }
{
    let last = tables::last_start(pair.motif.bases.len(), pair.motif.tables, to, l);
    row::close_arc(&pair.motif, from, last, to, pair.q[l], pair.q[r], work);
}

// Leaves the row of lo..hi, which has no arc, as the first row of work.
fn flat_row(pair: &Pair, from: usize, to: usize, lo: usize, hi: usize, work: &mut [u16])
    requires segment { SegmentOf pair.now.motif from to }
    requires lo_le_hi { (lo ≤ hi) × (hi ≤ length pair.now.q.now) }
    requires by_index { (u : ℕ) → lo ≤ u → u < hi → nth pair.now.qm.now u ≡ u }
    requires room { length pair.now.motif.bases.now < length work.old }
    requires bounded { BoundsIn pair.now from to lo hi }
    ensures { RowIn pair.now from to lo hi work.new }
{
    if hi <= lo {
        let last = tables::last_start(pair.motif.bases.len(), pair.motif.tables, to, lo);
        row::identity(from, last, work);
        return;
    }
    let last = tables::last_start(pair.motif.bases.len(), pair.motif.tables, to, hi - 1);
    row::single(&pair.motif, from, last, to, pair.q[hi - 1], work);
    for i in (lo..hi - 1).rev() {
        let last = tables::last_start(pair.motif.bases.len(), pair.motif.tables, to, i);
        row::extend(&pair.motif, from, last, to, pair.q[i], work);
    }
}

// Leaves the row of l + 1..r, inside the arc l, r, as the first row of work. Before, the row inside the arc whose left end is `kept` is there, or kept is
// q.len().
#[cycle(inner_row_prepend_stretch_row)]
pub fn inner_row(
    pair: &Pair,
    from: usize,
    to: usize,
    l: usize,
    r: usize,
    kept: usize,
    work: &mut [u16],
)
    requires segment { SegmentOf pair.now.motif from to }
    requires l_lt_r { (l < r) × ((r < length pair.now.q.now) × (nth pair.now.qm.now l ≡ r)) }
    requires room { Room (length pair.now.motif.bases.now + 1) (r - l) (length work.old) }
    requires bounded { BoundsIn pair.now from to (l + 1) r }
    requires kept_row { KeptIn pair.now from to kept work.old }
    ensures { RowIn pair.now from to (l + 1) r work.new }
{
    if l == kept {
        return;
    }
    let w = pair.motif.bases.len() + 1;
    let heavy_l = heaviest(pair.qm, l + 1, r);
    if r <= heavy_l {
        flat_row(pair, from, to, l + 1, r, work);
        return;
    }
    let heavy_r = mate(pair.qm, heavy_l);
    inner_row(pair, from, to, heavy_l, heavy_r, kept, work);
    close(pair, from, to, heavy_l, heavy_r, work);
    if heavy_r + 1 < r {
        let rest = &mut work[w..];
        stretch_row(pair, from, to, heavy_r + 1, r, rest);
        let last = tables::last_start(pair.motif.bases.len(), pair.motif.tables, to, heavy_l);
        row::combine(from, last, 0, w, work);
    }
    if l + 1 < heavy_l {
        prepend(pair, from, to, l + 1, heavy_l, work);
    }
}

// Leaves the row of lo..hi, which is not empty and no arc leaves, as the first row of work.
#[cycle(inner_row_prepend_stretch_row)]
fn stretch_row(pair: &Pair, from: usize, to: usize, lo: usize, hi: usize, work: &mut [u16])
    requires segment { SegmentOf pair.now.motif from to }
    requires lo_lt_hi { (lo < hi) × (hi ≤ length pair.now.q.now) }
    requires sealed { Sealed pair.now.qm.now lo hi }
    requires light_room { LightRoom (length pair.now.motif.bases.now + 1) pair.now.qm.now lo hi (length work.old) }
    requires bounded { BoundsIn pair.now from to lo hi }
    ensures { RowIn pair.now from to lo hi work.new }
{
    let r = hi - 1;
    let l = mate(pair.qm, r);
    if l == r {
        let last = tables::last_start(pair.motif.bases.len(), pair.motif.tables, to, r);
        row::single(&pair.motif, from, last, to, pair.q[r], work);
    } else {
        inner_row(pair, from, to, l, r, pair.q.len(), work);
        close(pair, from, to, l, r, work);
    }
    if lo < l {
        prepend(pair, from, to, lo, l, work);
    }
}

// Puts lo..hi, which no arc leaves, in front of the stretch whose row is the first of work. By a while: it goes on before each arc.
#[cycle(inner_row_prepend_stretch_row)]
fn prepend(pair: &Pair, from: usize, to: usize, lo: usize, hi: usize, work: &mut [u16])
    requires segment { SegmentOf pair.now.motif from to }
    requires lo_le_hi { (lo ≤ hi) × (hi ≤ length pair.now.q.now) }
    requires sealed { Sealed pair.now.qm.now lo hi }
    requires light_room { LightRoom (length pair.now.motif.bases.now + 1) pair.now.qm.now lo hi (length work.old) }
    requires bounded { BoundsIn pair.now from to lo hi }
    ensures { PutBefore pair.now from to lo hi
        work.old work.new }
{
    let w = pair.motif.bases.len() + 1;
    let mut i = hi;
    while lo < i {
        let r = i - 1;
        let l = mate(pair.qm, r);
        if l == r {
            let last = tables::last_start(pair.motif.bases.len(), pair.motif.tables, to, r);
            row::extend(&pair.motif, from, last, to, pair.q[r], work);
        } else {
            let rest = &mut work[w..];
            inner_row(pair, from, to, l, r, pair.q.len(), rest);
            close(pair, from, to, l, r, rest);
            let last = tables::last_start(pair.motif.bases.len(), pair.motif.tables, to, l);
            row::combine(from, last, w, 0, work);
        }
        i = l;
    }
}
