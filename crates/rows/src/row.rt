// The row operations. A row for the motif's segment from..to has an entry for each start from `from` to `last`, which is `to` or less, at that index of the
// slice that the operation borrows; a second row starts `at` entries further on. The bodies of the loops are functions of values, with early returns: the
// compiler makes vector code of them.
ghost use Rattle.std.specs.Prelude.{◌≡◌, ℕ, ◌+◌, ◌-◌, ◌*◌, ◌/◌, ◌%◌, ◌≤◌, ◌<◌, min, max, length, eqb, true};
ghost use Rattle.lists.specs.Vocabulary.{nth, choose};
ghost use Rattle.letters.specs.Letters.{is_letter};
ghost use Rattle.refusals.specs.Rules.{molecule_side};
ghost use Rattle.embedding.specs.Row.{unit_at, over_at, arc_at, over_by};
ghost use Rattle.rows.specs.Rows.{Written, Remade, Steps, matches};
ghost use Rattle.rows.specs.Motifs.{SegmentOf};

use crate::motif::Motif;
use crate::tables;

// The row of an empty stretch.
pub fn identity(from: usize, to: usize, row: &mut [u16])
    requires { (from ≤ to) × ((to ≤ 4096) × (to < length row.old)) }
    ensures { Written (λ j. j) row.old row.new from (to + 1) }
{
    for j in from..to + 1 {
        row[j] = j as u16;
    }
}

// The entry for j with a base in front whose own row has the entry `step` for j: the next one where the base takes j.
fn extend_entry(step: u16, j: u16, here: u16, next: u16) -> u16
    ensures { result ≡ choose (eqb step j) here next }
{
    if step == j {
        return here;
    }
    next
}

// The row with the unbonded base in front whose own row is `steps`, for the starts from `from` to before `end`.
fn extend_by(steps: &[u16], from: usize, end: usize, row: &mut [u16])
    requires from_le_end { (from ≤ end) × ((end ≤ 4096) × (end < length row.old)) }
    requires steps { Steps steps.now end }
    ensures { Written (λ j. nth row.old (nth steps.now j)) row.old row.new from end }
{
    for j in from..end {
        row[j] = extend_entry(steps[j], j as u16, row[j], row[j + 1]);
    }
}

// The row with the unbonded base b put in front of its stretch (003: extend). The entry for `to` stays.
pub fn extend(motif: &Motif, from: usize, last: usize, to: usize, b: u8, row: &mut [u16])
    requires segment { SegmentOf motif.now from to }
    requires from_le_last { (from ≤ last) × (last ≤ to) }
    requires b_letter { is_letter molecule_side b ≡ true }
    requires to_in_bounds { to < length row.old }
    ensures { Written (λ j. nth row.old (unit_at (matches motif.now.bases.now b) (nth motif.now.mates.now) to j))
        row.old row.new from (min (last + 1) to) }
{
    let at = tables::steps_at(motif.bases.len(), b);
    let end = (last + 1).min(to);
    extend_by(&motif.tables[at..], from, end, row);
}

// Copies the entries of a base's row, from `from` to before `end`. By index: `copy_from_slice` of a part of any length calls `memmove`, and the archive for C
// asks for no other function of the C library than `memcpy` and `memset`.
fn copy_steps(steps: &[u16], from: usize, end: usize, row: &mut [u16])
    requires from_le_end { (from ≤ end) × ((end ≤ 4096) × (end < length row.old)) }
    requires steps { Steps steps.now end }
    ensures { Written (nth steps.now) row.old row.new from end }
{
    for j in from..end {
        row[j] = steps[j];
    }
}

// The row of the unbonded base b (003: initialize). Of its entries in the tables only the one for `to` may be past the segment.
pub fn single(motif: &Motif, from: usize, last: usize, to: usize, b: u8, row: &mut [u16])
    requires segment { SegmentOf motif.now from to }
    requires from_le_last { (from ≤ last) × (last ≤ to) }
    requires b_letter { is_letter molecule_side b ≡ true }
    requires to_in_bounds { to < length row.old }
    ensures { Written (unit_at (matches motif.now.bases.now b) (nth motif.now.mates.now) to) row.old row.new from (last + 1) }
{
    let at = tables::steps_at(motif.bases.len(), b);
    let steps = &motif.tables[at..];
    copy_steps(steps, from, last, row);
    row[last] = steps[last].min(to as u16);
}

// The row of two stretches (003: combine), in the place of the first row: `first` is where the row of the one in front starts, `then` where that of the one
// behind does, whose entries may lie past `last`.
pub fn combine(from: usize, last: usize, first: usize, then: usize, row: &mut [u16])
    requires from_le_last { (from ≤ last) × ((last ≤ 4096) × (first + last < length row.old)) }
    requires by_index { (j : ℕ) → from ≤ j → j ≤ last → (j ≤ nth row.old (first + j)) × (then + nth row.old (first + j) < length row.old) }
    ensures { Written (λ j. nth row.old (then + nth row.old (first + j))) row.old row.new from (last + 1) }
{
    for j in from..last + 1 {
        let k = row[first + j] as usize;
        row[j] = row[then + k];
    }
}

// Writes at `at` the row for the segment that ends at `to`: no entry goes past it.
pub fn cut(from: usize, to: usize, at: usize, row: &mut [u16])
    requires { (from ≤ to) × ((to ≤ 4096) × ((to < at) × (at + to < length row.old))) }
    ensures { Written (λ k. min (nth row.old (k - at)) to) row.old row.new (at + from) (at + to + 1) }
{
    for j in from..to + 1 {
        row[at + j] = row[j].min(to as u16);
    }
}

// Where the unbonded base y takes the whole motif from `from` on: one look into the base's row. No letter is compared, and no branch depends on one.
pub fn next_of(motif: &Motif, from: usize, y: u8) -> usize
    requires p_len_bound { from ≤ length motif.now.bases.now }
    requires y_letter { is_letter molecule_side y ≡ true }
    ensures { result ≡ unit_at (matches motif.now.bases.now y) (nth motif.now.mates.now) (length motif.now.bases.now) from }
{
    let at = tables::steps_at(motif.bases.len(), y);
    motif.tables[at + from] as usize
}

// Where an unbonded base y takes the motif's segment from..to: from + 1 or `from`. It needs no tables.
pub fn unit(p: &[u8], pm: &[u16], from: usize, to: usize, y: u8) -> usize
    requires { (length pm.now ≡ length p.now) × (to ≤ length p.now) }
    ensures { result ≡ unit_at (matches p.now y) (nth pm.now) to from }
{
    if to <= from {
        return from;
    }
    if from < pm[from] as usize {
        return from;
    }
    if letters::letters_match(p[from], y) {
        return from + 1;
    }
    from
}

// What an arc takes from j with its left end: `pair` has the class of the base of j and, above it, that of its mate k; x and y are the classes of the arc's
// bases, and `next` is the inner row's entry for j + 1. 0 is nothing, as in `over_by`: what is taken otherwise is no less, so the larger of both needs no test.
pub fn over_entry(pair: u16, x: u16, y: u16, k: u16, j: u16, to: u16, next: u16) -> u16
    ensures { result ≡ over_by (eqb (pair % 256) x) (eqb (pair / 256) y) k to next j }
{
    if pair % 256 != x {
        return 0;
    }
    if k <= j {
        return next;
    }
    if to <= k {
        return 0;
    }
    if pair / 256 != y {
        return 0;
    }
    if next < k {
        return 0;
    }
    k + 1
}

// The entry for `from` of an arc with the bases x and y in the whole motif, from its inner row's entries for `from` and from + 1: what the arc takes with its
// right end alone, or with its left end.
pub fn arc_entry(motif: &Motif, from: usize, x: u8, y: u8, here: u16, next: u16) -> u16
    requires pm_len { length motif.now.mates.now ≡ length motif.now.bases.now }
    requires from_in_bounds { (from < length motif.now.bases.now) × (here ≤ length motif.now.bases.now) }
    requires y_letter { is_letter molecule_side y ≡ true }
    ensures { result ≡ arc_at (matches motif.now.bases.now x) (matches motif.now.bases.now y) (nth motif.now.mates.now) (length motif.now.bases.now)
        here next from }
{
    let both = next_of(motif, here as usize, y) as u16;
    let left = u16::from(letters::letter_class(x));
    let right = u16::from(letters::letter_class(y));
    let over = over_entry(
        motif.tables[from],
        left,
        right,
        motif.mates[from],
        from as u16,
        motif.bases.len() as u16,
        next,
    );
    both.max(over)
}

// Writes at `at` what an arc with the bases x and y takes with its left end, from its inner row, for the starts from `from` to before `end`.
fn over(motif: &Motif, from: usize, end: usize, to: usize, x: u8, y: u8, at: usize, row: &mut [u16])
    requires segment { SegmentOf motif.now from to }
    requires from_le_end { (from ≤ end) × ((end ≤ to) × ((to < at) × ((at ≤ 4097) × (at + to < length row.old)))) }
    ensures { Written (λ k. over_at (matches motif.now.bases.now x) (matches motif.now.bases.now y) (nth motif.now.mates.now) to
        (nth row.old (k - at + 1)) (k - at)) row.old row.new (at + from) (at + end) }
{
    let left = u16::from(letters::letter_class(x));
    let right = u16::from(letters::letter_class(y));
    let classes = motif.tables;
    let mates = motif.mates;
    for j in from..end {
        row[at + j] = over_entry(
            classes[j],
            left,
            right,
            mates[j],
            j as u16,
            to as u16,
            row[j + 1],
        );
    }
}

// Takes the entries from `from` to before `end` on by the unbonded base behind whose own row is `steps`.
fn step(steps: &[u16], from: usize, end: usize, row: &mut [u16])
    requires from_le_end { (from ≤ end) × ((end ≤ 4096) × (end < length row.old)) }
    requires by_index { (j : ℕ) → from ≤ j → j < end → nth row.old j < length steps.now }
    ensures { Written (λ j. nth steps.now (nth row.old j)) row.old row.new from end }
{
    for j in from..end {
        let k = row[j] as usize;
        row[j] = steps[k];
    }
}

// Raises the entries from `from` to before `end` to those of the row at `at`, none past `to`.
fn raise(from: usize, end: usize, to: usize, at: usize, row: &mut [u16])
    requires { (from ≤ end) × ((end ≤ to) × ((to ≤ 4096) × ((to < at) × (at + to < length row.old)))) }
    ensures { Written (λ j. max (min (nth row.old j) to) (nth row.old (at + j)))
        row.old row.new from end }
{
    for j in from..end {
        row[j] = row[j].min(to as u16).max(row[at + j]);
    }
}

// The smaller of k and `to` where k is past it by one at most: with no branch in the code that is made of it.
fn capped(k: u16, to: u16) -> u16
    requires { k ≤ to + 1 }
    ensures { result ≡ min k to }
{
    k - u16::from(to < k)
}

// The entries of the row of an arc with the bases x and y from `from` to before `end`, in the place of its inner row: in one pass, for few entries. `steps`
// is the row of an unbonded y.
fn close_short(
    motif: &Motif,
    steps: &[u16],
    from: usize,
    end: usize,
    to: usize,
    x: u8,
    y: u8,
    row: &mut [u16],
)
    requires segment { SegmentOf motif.now from to }
    requires steps { Steps steps.now to }
    requires from_le_end { (from ≤ end) × ((end ≤ to) × (to < length row.old)) }
    requires by_index { (j : ℕ) → from ≤ j → j < end → nth row.old j ≤ to }
    ensures { Written (λ j. max (min (nth steps.now (nth row.old j)) to)
        (over_at (matches motif.now.bases.now x) (matches motif.now.bases.now y) (nth motif.now.mates.now) to (nth row.old (j + 1)) j))
        row.old row.new from end }
{
    let left = u16::from(letters::letter_class(x));
    let right = u16::from(letters::letter_class(y));
    let classes = motif.tables;
    let mates = motif.mates;
    for j in from..end {
        let k = row[j] as usize;
        let both = capped(steps[k], to as u16);
        let over = over_entry(
            classes[j],
            left,
            right,
            mates[j],
            j as u16,
            to as u16,
            row[j + 1],
        );
        row[j] = both.max(over);
    }
}

// From so many entries on an arc is closed by short loops over whole rows.
const LONG: usize = 40;

// The row of an arc with the bases x and y (003: meld), in the place of its inner row; the entry for `to` stays. Few entries are done in one pass; for many
// short loops over whole rows are faster, and the next row is written too.
pub fn close_arc(motif: &Motif, from: usize, last: usize, to: usize, x: u8, y: u8, row: &mut [u16])
    requires segment { SegmentOf motif.now from to }
    requires from_le_last { (from ≤ last) × (last ≤ to) }
    requires y_letter { is_letter molecule_side y ≡ true }
    requires room { 2 * (length motif.now.bases.now + 1) ≤ length row.old }
    requires by_index { (j : ℕ) → from ≤ j → j ≤ last → (j ≤ nth row.old j) × (nth row.old j ≤ to) }
    ensures { Remade (λ j. arc_at (matches motif.now.bases.now x) (matches motif.now.bases.now y) (nth motif.now.mates.now) to
        (nth row.old j) (nth row.old (j + 1)) j) row.old row.new from (min (last + 1) to) }
{
    let w = motif.bases.len() + 1;
    let at = tables::steps_at(motif.bases.len(), y);
    let end = (last + 1).min(to);
    let steps = &motif.tables[at..];
    if end < from + LONG {
        close_short(motif, steps, from, end, to, x, y, row);
        return;
    }
    over(motif, from, end, to, x, y, w, row);
    step(steps, from, end, row);
    raise(from, end, to, w, row);
}
