// The path of longest arcs: a middle arc of it, and the row inside that arc, which is kept.
ghost use Rattle.std.specs.Prelude.{◌≡◌, ◌+◌, ◌-◌, ◌*◌, ◌≤◌, ◌<◌, length, IfSome};
ghost use Rattle.lists.specs.Vocabulary.{nth};
ghost use Rattle.strand.specs.Strands.{Nested};
ghost use Rattle.embedding.specs.Row.{Closed};
ghost use Rattle.rows.specs.Motifs.{SegmentOf};
ghost use Rattle.arcs.specs.Pairs.{AllStartsIn};
ghost use Rattle.placing.specs.Placing.{Lower, Between};
ghost use Rattle.placing.specs.Pairs.{KeptAroundIn, SecondRowIn};

use arcs::pair::Pair;
use rows::row;

// The span from..to of the motif.
#[derive(Clone, Copy)]
pub struct Span {
    pub from: usize,
    pub to: usize,
}

// The bases of the arc whose left end is l but one, or none past the molecule.
fn size(qm: &[u16], l: usize) -> usize
    ensures { (result ≡ nth qm.now l - l) × (result < 65536) }
{
    if qm.len() <= l {
        return 0;
    }
    (qm[l] as usize).saturating_sub(l)
}

// The longest arc inside the arc from l, if there is one, and it is not the kept arc.
fn lower(qm: &[u16], l: usize, kept: usize) -> Option<usize>
    requires nested { Nested (nth qm.now) (length qm.now) }
    requires l_in_bounds { (l < length qm.now) × (l < nth qm.now l) }
    ensures { IfSome result (λ inner. (l < inner) × Lower qm.now l kept inner) }
{
    let r = arcs::mate(qm, l);
    let inner = arcs::heaviest(qm, l + 1, r);
    if inner < r && inner < kept {
        Some(inner)
    } else {
        None
    }
}

// The innermost arc of the path from l to the kept arc that halves the bases of l..hi outside of the kept arc, or that from l itself where none does. Where no
// arc is kept, and the arc from l is much shorter than the motif's segment, which has `bases` bases, l too: rows for its own segment cost less.
pub fn middle(qm: &[u16], bases: usize, l: usize, hi: usize, kept: usize) -> usize
    requires nested { Nested (nth qm.now) (length qm.now) }
    requires l_lt_hi { (l < hi) × ((hi ≤ length qm.now) × (l < nth qm.now l)) }
    requires bases_bound { (bases ≤ 4096) × (length qm.now ≤ 4096) }
    ensures { Between qm.now l hi kept result }
{
    if qm.len() <= kept && 3 * size(qm, l) < 2 * bases {
        return l;
    }
    let least = hi - l + size(qm, kept);
    let mut mid = l;
    while let Some(next) = lower(qm, mid, kept) {
        if 2 * size(qm, next) < least {
            return mid;
        }
        mid = next;
    }
    mid
}

// Leaves the row inside the arc l, r for the segment from..to past the first row of work.
pub fn keep(pair: &Pair, from: usize, to: usize, l: usize, r: usize, kept: usize, work: &mut [u16])
    requires segment { SegmentOf pair.now.motif from to }
    requires closed { Closed (nth pair.now.motif.mates.now) from to }
    requires l_lt_r { (l < r) × ((r < length pair.now.q.now) × (nth pair.now.qm.now l ≡ r)) }
    requires kept_around { KeptAroundIn pair.now from to kept work.old }
    requires room { 24 * (length pair.now.motif.bases.now + 1) ≤ length work.old }
    requires all_starts { AllStartsIn pair.now }
    ensures { SecondRowIn pair.now from to l r work.old work.new }
{
    let w = pair.motif.bases.len() + 1;
    row::cut(from, to, w, work);
    arcs::inner_row(pair, from, to, l, r, kept, &mut work[w..]);
}
