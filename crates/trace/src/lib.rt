// An embedding of the longest prefix: the walk over the molecule that also writes the places. Down a path of longest arcs rows are wanted from the outside
// in, but come from the inside out: the row inside a middle arc of the path, the kept arc, stays while what lies outside of that arc is placed. `kept` is
// its left end, or q.len() where there is none: a number, since q.len() lies behind every arc, and so each comparison with `kept` is right for both.
// Segment, stretch, kept arc and slices change from call to call, so they are parameters; what stays is the pair.
#![tactic(auto)]

ghost use Rattle.std.specs.Prelude.{◌≡◌, ◌+◌, ◌-◌, ◌*◌, ◌≤◌, ◌<◌, length};
ghost use Rattle.lists.specs.Vocabulary.{nth};
ghost use Rattle.embedding.specs.Row.{Best, Reach};
ghost use Rattle.embedding.specs.Embedding.{letters_fit};
ghost use Rattle.refusals.specs.Rules.{work_size};
ghost use Rattle.strand.specs.Lent.{on_pair};
ghost use Rattle.rows.specs.Motifs.{SegmentOf};
ghost use Rattle.arcs.specs.Arcs.{Setting, Sealed};
ghost use Rattle.arcs.specs.Pairs.{AllStartsIn, BestIn};
ghost use Rattle.placing.specs.Placing.{Laid, OnPath, Levels, ArcLevels};
ghost use Rattle.placing.specs.Pairs.{LaidIn, LaidButIn, KeptAroundIn, FromArcIn, AtArcIn};

use arcs::bounds;
use arcs::pair::Pair;
use placing::path::Span;
use placing::take::ArcTake;
use placing::{path, take};
use rows::motif::Motif;
use rows::tables::{self, LONG_SIZE, SHORT_MOLECULE, SHORT_MOTIF, SHORT_SIZE};
use strand::Strand;

// Writes the places of from.. as far as the motif up to `to` is taken by lo..hi, and gives how far that is. By a while: it goes on behind each arc.
#[cycle(along_descend_enter_past_place_place_arc)]
fn place(
    pair: &Pair,
    from: usize,
    to: usize,
    lo: usize,
    hi: usize,
    places: &mut [u16],
    work: &mut [u16],
) -> usize
    requires segment { SegmentOf pair.now.motif from to }
    requires lo_le_hi { (lo ≤ hi) × (hi ≤ length pair.now.q.now) }
    requires sealed { Sealed pair.now.qm.now lo hi }
    requires to_in_bounds { to ≤ length places.old }
    requires arc_levels { ArcLevels (length pair.now.motif.bases.now + 1) pair.now.qm.now lo hi (length work.old) }
    requires all_starts { AllStartsIn pair.now }
    ensures best { BestIn pair.now to from result lo hi }
    ensures laid { LaidIn pair.now from result lo hi places.old places.new }
{
    let motif = &pair.motif;
    let mut j = from;
    let mut l = lo;
    while l < hi {
        if to <= j {
            return j;
        }
        let r = arcs::mate(pair.qm, l);
        if l < r {
            j = place_arc(pair, j, to, l, r, places, work);
        } else {
            j = take::put_base(motif.bases, motif.mates, pair.q, j, to, l, places);
        }
        l = r + 1;
    }
    j
}

// As `place`, for the arc l, r alone.
#[cycle(along_descend_enter_past_place_place_arc)]
fn place_arc(
    pair: &Pair,
    from: usize,
    to: usize,
    l: usize,
    r: usize,
    places: &mut [u16],
    work: &mut [u16],
) -> usize
    requires segment { SegmentOf pair.now.motif from to }
    requires from_lt_to { (from < to) × (to ≤ length places.old) }
    requires l_lt_r { (l < r) × ((r < length pair.now.q.now) × (nth pair.now.qm.now l ≡ r)) }
    requires levels { Levels (length pair.now.motif.bases.now + 1) (r - (l + 1)) (r - (l + 1)) (length work.old) }
    requires all_starts { AllStartsIn pair.now }
    ensures best { BestIn pair.now to from result l (r + 1) }
    ensures laid { LaidIn pair.now from result l (r + 1) places.old places.new }
{
    let t = take::take_at(pair, from, to, l, r, places, work);
    let none = pair.q.len();
    descend(pair, t.from, t.to, l + 1, r, none, places, work);
    t.next
}

// What the arc l, r, which is the kept arc or holds it, takes of the segment from..to, and the span of it that falls inside the kept arc: all else is placed.
#[cycle(along_descend_enter_past_place_place_arc)]
fn enter(
    pair: &Pair,
    from: usize,
    to: usize,
    l: usize,
    r: usize,
    kept: usize,
    places: &mut [u16],
    work: &mut [u16],
) -> ArcTake
    requires { AtArcIn pair.now from to l r kept (length places.old) work.old }
    ensures best { BestIn pair.now to from result.next l (r + 1) }
    ensures laid_but { LaidButIn pair.now from result.next l (r + 1) result.from result.to kept places.old places.new }
{
    let t = take::take_kept(pair, from, to, l, r, kept, places, work);
    if l == kept {
        return t;
    }
    let span = descend(pair, t.from, t.to, l + 1, r, kept, places, work);
    ArcTake {
        from: span.from,
        to: span.to,
        next: t.next,
    }
}

// As `along`, with no middle arc: the arc from l first, then what lies behind it.
#[cycle(along_descend_enter_past_place_place_arc)]
fn past(
    pair: &Pair,
    from: usize,
    to: usize,
    l: usize,
    hi: usize,
    kept: usize,
    places: &mut [u16],
    work: &mut [u16],
) -> Span
    requires { FromArcIn pair.now from to l hi kept (length places.old) work.old }
    ensures { LaidButIn pair.now from to l hi result.from result.to kept places.old places.new }
{
    let r = arcs::mate(pair.qm, l);
    if r <= kept {
        place(pair, from, to, l, hi, places, work);
        return Span { from, to: from };
    }
    let t = enter(pair, from, to, l, r, kept, places, work);
    place(pair, t.next, to, r + 1, hi, places, work);
    Span {
        from: t.from,
        to: t.to,
    }
}

// As `descend`, where an arc begins at l.
#[cycle(along_descend_enter_past_place_place_arc)]
fn along(
    pair: &Pair,
    from: usize,
    to: usize,
    l: usize,
    hi: usize,
    kept: usize,
    places: &mut [u16],
    work: &mut [u16],
) -> Span
    requires { FromArcIn pair.now from to l hi kept (length places.old) work.old }
    ensures { LaidButIn pair.now from to l hi result.from result.to kept places.old places.new }
{
    let w = pair.motif.bases.len() + 1;
    let mid = path::middle(pair.qm, to - from, l, hi, kept);
    if mid <= l {
        return past(pair, from, to, l, hi, kept, places, work);
    }
    let r = arcs::mate(pair.qm, mid);
    path::keep(pair, from, to, mid, r, kept, work);
    let b = along(pair, from, to, l, hi, mid, places, &mut work[w..]);
    descend(pair, b.from, b.to, mid + 1, r, kept, places, work)
}

// Writes the places of the segment from..to of the motif, which embeds in lo..hi, all but those of the span that falls inside the kept arc, and gives that
// span.
#[cycle(along_descend_enter_past_place_place_arc)]
fn descend(
    pair: &Pair,
    from: usize,
    to: usize,
    lo: usize,
    hi: usize,
    kept: usize,
    places: &mut [u16],
    work: &mut [u16],
) -> Span
    requires segment { SegmentOf pair.now.motif from to }
    requires lo_le_hi { (lo ≤ hi) × (hi ≤ length pair.now.q.now) }
    requires reach { Reach (letters_fit pair.now.motif.bases.now pair.now.q.now) (nth pair.now.motif.mates.now) (nth pair.now.qm.now) to from to lo hi }
    requires sealed { Sealed pair.now.qm.now lo hi }
    requires kept_in_bounds { (kept ≤ length pair.now.q.now) × (kept < length pair.now.q.now → OnPath pair.now.qm.now lo hi kept) }
    requires kept_around { KeptAroundIn pair.now from to kept work.old }
    requires to_in_bounds { to ≤ length places.old }
    requires levels { Levels (length pair.now.motif.bases.now + 1) (hi - lo) (hi - lo - (nth pair.now.qm.now kept - kept)) (length work.old) }
    requires all_starts { AllStartsIn pair.now }
    ensures { LaidButIn pair.now from to lo hi result.from result.to kept places.old places.new }
{
    let none = Span { from, to: from };
    if to <= from {
        return none;
    }
    let w = pair.motif.bases.len() + 1;
    let l = arcs::heaviest(pair.qm, lo, hi);
    let k = place(pair, from, to, lo, l, places, &mut work[w..]);
    if to <= k {
        return none;
    }
    along(pair, k, to, l, hi, kept, places, work)
}

// As `place_all`, with borrowed room for the tables of the motif.
fn place_all_lent<'a>(
    motif: &Strand<'a>,
    molecule: &Strand<'a>,
    places: &mut [u16],
    work: &mut [u16],
    tables: &mut [u16],
) -> usize
    requires setting { on_pair Setting motif.now molecule.now 0 (length motif.now.bases.now) }
    requires room { length motif.now.bases.now ≤ length places.old }
    requires work_room { work_size (length motif.now.bases.now) (length molecule.now.bases.now) ≤ length work.old }
    requires table_room { 5 * (length motif.now.bases.now + 1) + length molecule.now.bases.now < length tables.old }
    ensures best { Best (letters_fit motif.now.bases.now molecule.now.bases.now) (nth motif.now.mates.now) (nth molecule.now.mates.now)
        (length motif.now.bases.now) 0 result 0 (length molecule.now.bases.now) }
    ensures laid { on_pair Laid motif.now molecule.now 0 result 0 (length molecule.now.bases.now) places.old places.new }
{
    let Strand { bases, mates } = *motif;
    let Strand {
        bases: q,
        mates: qm,
    } = *molecule;
    tables::fill(bases, mates, tables);
    bounds::all_starts(bases, mates, q.len(), tables);
    let motif = Motif {
        bases,
        mates,
        tables: &*tables,
    };
    let pair = Pair { motif, q, qm };
    place(&pair, 0, bases.len(), 0, q.len(), places, work)
}

// The same, with room for SIZE numbers in the tables: those of short strands take little.
fn place_all_in<const SIZE: usize>(
    motif: &Strand,
    molecule: &Strand,
    places: &mut [u16],
    work: &mut [u16],
) -> usize
    requires setting { on_pair Setting motif.now molecule.now 0 (length motif.now.bases.now) }
    requires room { length motif.now.bases.now ≤ length places.old }
    requires work_room { work_size (length motif.now.bases.now) (length molecule.now.bases.now) ≤ length work.old }
    requires table_room { 5 * (length motif.now.bases.now + 1) + length molecule.now.bases.now < SIZE }
    requires size { SIZE ≤ LONG_SIZE }
    ensures best { Best (letters_fit motif.now.bases.now molecule.now.bases.now) (nth motif.now.mates.now) (nth molecule.now.mates.now)
        (length motif.now.bases.now) 0 result 0 (length molecule.now.bases.now) }
    ensures laid { on_pair Laid motif.now molecule.now 0 result 0 (length molecule.now.bases.now) places.old places.new }
{
    let mut tables = [0u16; SIZE];
    place_all_lent(motif, molecule, places, work, &mut tables)
}

// Writes the places of the motif as far as the molecule takes it, and gives how far that is.
pub fn place_all(motif: &Strand, molecule: &Strand, places: &mut [u16], work: &mut [u16]) -> usize
    requires setting { on_pair Setting motif.now molecule.now 0 (length motif.now.bases.now) }
    requires room { length motif.now.bases.now ≤ length places.old }
    requires work_room { work_size (length motif.now.bases.now) (length molecule.now.bases.now) ≤ length work.old }
    ensures best { Best (letters_fit motif.now.bases.now molecule.now.bases.now) (nth motif.now.mates.now) (nth molecule.now.mates.now)
        (length motif.now.bases.now) 0 result 0 (length molecule.now.bases.now) }
    ensures laid { on_pair Laid motif.now molecule.now 0 result 0 (length molecule.now.bases.now) places.old places.new }
{
    if motif.bases.len() <= SHORT_MOTIF && molecule.bases.len() <= SHORT_MOLECULE {
        return place_all_in::<SHORT_SIZE>(motif, molecule, places, work);
    }
    place_all_in::<LONG_SIZE>(motif, molecule, places, work)
}
