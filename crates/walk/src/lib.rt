// The walk over the top of the molecule, or of a window of it, from left to right: how far the motif is taken, and whether all of it.
#![tactic(auto)]

ghost use Rattle.std.specs.Prelude.{◌≡◌, true, ℕ, ◌+◌, ◌*◌, ◌≤◌, ◌<◌, length};
ghost use Rattle.lists.specs.Vocabulary.{nth};
ghost use Rattle.lists.proofs.ListLaws.{Tells};
ghost use Rattle.letters.specs.Letters.{letters_match};
ghost use Rattle.strand.specs.Strands.{Nested, Proper, least_motif, least_molecule, greatest_length};
ghost use Rattle.strand.specs.Lent.{lent, on_strand, on_pair};
ghost use Rattle.refusals.specs.Rules.{motif_side, molecule_side, work_size};
ghost use Rattle.embedding.specs.Embedding.{letters_fit};
ghost use Rattle.embedding.specs.Longest.{longest, embeds as embeds_in};
ghost use Rattle.rows.specs.Rows.{Tables};
ghost use Rattle.rows.specs.Motifs.{bound_of};
ghost use Rattle.arcs.specs.Arcs.{Setting};
ghost use Rattle.arcs.specs.Pairs.{BestIn, BoundsIn};
ghost use Rattle.walk.specs.Walk.{TablesFor, PairOf, Carried, ArcWithin, Unbonded};

use arcs::bounds;
use arcs::pair::Pair;
use rows::motif::Motif;
use rows::row;
use rows::tables::{self, LONG_SIZE, SHORT_MOLECULE, SHORT_MOTIF, SHORT_SIZE};
use strand::Strand;

// The numbers of the tables of a motif of 120 bases with the bounds of a molecule of 160, the longest that a query has.
pub const QUERY_TABLES: usize = SHORT_SIZE;

// Makes the tables of the motif, once for all molecules that it is searched in.
pub fn prepare(motif: &Strand, tables: &mut [u16])
    requires pm_len { (length motif.now.mates.now ≡ length motif.now.bases.now) × (length motif.now.bases.now ≤ 4096) }
    requires nested { Nested (nth motif.now.mates.now) (length motif.now.bases.now) }
    requires room { 5 * (length motif.now.bases.now + 1) ≤ length tables.old }
    ensures { (n : ℕ) → 5 * (length motif.now.bases.now + 1) + n < length tables.old
        → on_strand TablesFor motif.now n tables.new }
{
    tables::fill(motif.bases, motif.mates, tables);
}

// Where a walk has come to: the next base of the molecule, and how far what lies before it takes the motif.
#[derive(Clone, Copy, Debug, PartialEq, Eq)]
pub struct Place {
    pub base: usize,
    pub from: usize,
}

// Whether the bases lo..hi are unbonded.
fn unbonded(qm: &[u16], lo: usize, hi: usize) -> bool
    requires { (lo ≤ hi) × (hi ≤ length qm.now) }
    ensures { Tells result (Unbonded qm.now lo hi) }
{
    for i in lo..hi {
        if arcs::mate(qm, i) != i {
            return false;
        }
    }
    true
}

// The pair of a motif with its tables and a molecule: it is made again where the bounds behind the tables have been written.
fn pair_of<'a>(motif: Strand<'a>, tables: &'a [u16], molecule: Strand<'a>) -> Pair<'a>
    requires setting { on_pair Setting motif molecule 0 (length motif.bases.now) }
    requires tables { on_strand Tables motif tables.now }
    ensures { PairOf motif.entry tables.now molecule.entry result }
{
    let Strand { bases, mates } = motif;
    let motif = Motif {
        bases,
        mates,
        tables,
    };
    Pair {
        motif,
        q: molecule.bases,
        qm: molecule.mates,
    }
}

// How far the unbonded bases lo..hi take the motif from `from` on: base by base, each by one look into the tables.
fn loop_end(pair: &Pair, from: usize, lo: usize, hi: usize) -> usize
    requires from_in_bounds { from ≤ length pair.now.motif.bases.now }
    requires lo_le_hi { (lo ≤ hi) × (hi ≤ length pair.now.q.now) }
    requires unbonded { Unbonded pair.now.qm.now lo hi }
    ensures { BestIn pair.now (length pair.now.motif.bases.now) from result
        lo hi }
{
    let mut end = from;
    for base in &pair.q[lo..hi] {
        end = row::next_of(&pair.motif, end, *base);
    }
    end
}

// How far the unbonded bases inside the arc l, r take the motif from the position behind `from` on, if `from` matches the arc's left end; else the answer is
// not read.
fn next_end(pair: &Pair, from: usize, l: usize, r: usize) -> usize
    requires from_in_bounds { from < length pair.now.motif.bases.now }
    requires l_lt_r { (l < r) × (r < length pair.now.q.now) }
    requires unbonded { Unbonded pair.now.qm.now (l + 1) r }
    ensures upper_bound { result ≤ length pair.now.motif.bases.now }
    ensures best { letters_fit pair.now.motif.bases.now pair.now.q.now from l ≡ true
        → BestIn pair.now (length pair.now.motif.bases.now) (from + 1) result
        (l + 1) r }
{
    if pair.motif.tables[from] % 256 != u16::from(letters::letter_class(pair.q[l])) {
        return from;
    }
    loop_end(pair, from + 1, l + 1, r)
}

// How far the arc l, r, with no arc inside, takes the motif from `from` on: the two entries of its inner row that it needs are walked, and no row is made.
// Always in line: called, it has the pair in memory, and a molecule of small hairpins takes two fifths more instructions.
#[inline(always)]
fn hairpin_end(pair: &Pair, from: usize, l: usize, r: usize) -> usize
    requires from_in_bounds { from < length pair.now.motif.bases.now }
    requires l_lt_r { (l < r) × ((r < length pair.now.q.now) × (nth pair.now.qm.now l ≡ r)) }
    requires unbonded { Unbonded pair.now.qm.now (l + 1) r }
    ensures { BestIn pair.now (length pair.now.motif.bases.now) from result
        l (r + 1) }
{
    let here = loop_end(pair, from, l + 1, r) as u16;
    let next = next_end(pair, from, l, r) as u16;
    row::arc_entry(&pair.motif, from, pair.q[l], pair.q[r], here, next) as usize
}

// How far the arc l, r takes the motif from `from` on; `most` is the bound behind the arc.
fn arc_end(pair: &Pair, from: usize, most: usize, l: usize, r: usize, work: &mut [u16]) -> usize
    requires from_in_bounds { from < length pair.now.motif.bases.now }
    requires l_lt_r { (l < r) × ((r < length pair.now.q.now) × (nth pair.now.qm.now l ≡ r)) }
    requires work_room { work_size (length pair.now.motif.bases.now) (length pair.now.q.now) ≤ length work.old }
    requires bounded { BoundsIn pair.now from (length pair.now.motif.bases.now) l (r + 1) × (most ≡ bound_of pair.now.motif (r + 1)) }
    ensures { BestIn pair.now (length pair.now.motif.bases.now) from result
        l (r + 1) }
{
    if most <= from {
        return from;
    }
    let m = pair.motif.bases.len();
    arcs::inner_row(pair, from, m, l, r, pair.q.len(), work);
    row::arc_entry(
        &pair.motif,
        from,
        pair.q[l],
        pair.q[r],
        work[from],
        work[from + 1],
    ) as usize
}

// What is walked: a nested motif, and a nested molecule of letters.
#[derive(Clone, Copy)]
struct Strands<'a> {
    motif: Strand<'a>,
    molecule: Strand<'a>,
    ghost setting: { on_pair Setting motif molecule 0 (length motif.bases.now) },
}

impl Strands<'_> {
    ghost use Rattle.walk.specs.InStrands.{WalkedIn, TablesIn, TakenIn, longest_in};

    // The walk up to the first arc, or to the end of the motif or the molecule: it needs no tables.
    fn first_arc(&self) -> Place
        ensures { WalkedIn self.now result }
    {
        let m = self.motif.bases.len();
        let mut from = 0;
        for l in 0..self.molecule.bases.len() {
            if m <= from {
                return Place { base: l, from };
            }
            let r = arcs::mate(self.molecule.mates, l);
            if l < r {
                return Place { base: l, from };
            }
            from = row::unit(
                self.motif.bases,
                self.motif.mates,
                from,
                m,
                self.molecule.bases[l],
            );
        }
        Place {
            base: self.molecule.bases.len(),
            from,
        }
    }

    // How far an arc l, r at the top takes the motif from `from` on: bounds and rows are made only where there are arcs inside.
    fn top_arc_end(
        &self,
        tables: &mut [u16],
        from: usize,
        l: usize,
        r: usize,
        work: &mut [u16],
    ) -> usize
        requires from_in_bounds { from < length self.now.motif.bases.now }
        requires l_lt_r { (l < r) × ((r < length self.now.molecule.bases.now) × (nth self.now.molecule.mates.now l ≡ r)) }
        requires work_room { work_size (length self.now.motif.bases.now) (length self.now.molecule.bases.now) ≤ length work.old }
        requires tables_for { TablesIn self.now tables.old }
        ensures best { TakenIn self.now from result l (r + 1) }
        ensures tables_for_2 { TablesIn self.now tables.new }
    {
        if unbonded(self.molecule.mates, l + 1, r) {
            let pair = pair_of(self.motif, tables, self.molecule);
            return hairpin_end(&pair, from, l, r);
        }
        let most = bounds::fill(
            self.motif.bases,
            self.motif.mates,
            self.molecule.bases,
            from,
            l,
            r + 1,
            tables,
        );
        let pair = pair_of(self.motif, tables, self.molecule);
        arc_end(&pair, from, most, l, r, work)
    }

    // How far the whole motif is taken by the whole molecule, where the walk has come to `at`. By a while: it goes on behind each arc. The strands are copied
    // before the loop: behind a reference their slices would be read again at each base.
    fn whole_end(&self, tables: &mut [u16], at: Place, work: &mut [u16]) -> usize
        requires walked { WalkedIn self.now at }
        requires work_room { work_size (length self.now.motif.bases.now) (length self.now.molecule.bases.now) ≤ length work.old }
        requires tables_for { TablesIn self.now tables.old }
        ensures { result ≡ longest_in self.now }
    {
        let motif = self.motif;
        let molecule = self.molecule;
        let m = motif.bases.len();
        let mut from = at.from;
        let mut l = at.base;
        while l < molecule.bases.len() {
            if m <= from {
                return from;
            }
            let r = arcs::mate(molecule.mates, l);
            if l < r {
                from = self.top_arc_end(tables, from, l, r, work);
                l = r + 1;
            } else {
                let pair = pair_of(motif, tables, molecule);
                from = row::next_of(&pair.motif, from, molecule.bases[l]);
                l += 1;
            }
        }
        from
    }

    // The rest of `prefix_length`, from the first arc on, with borrowed room for the tables.
    fn rest_lent(&self, at: Place, work: &mut [u16], tables: &mut [u16]) -> usize
        requires walked { WalkedIn self.now at }
        requires work_room { work_size (length self.now.motif.bases.now) (length self.now.molecule.bases.now) ≤ length work.old }
        requires table_room { 5 * (length self.now.motif.bases.now + 1) + length self.now.molecule.bases.now < length tables.old }
        ensures { result ≡ longest_in self.now }
    {
        prepare(&self.motif, tables);
        self.whole_end(tables, at, work)
    }

    // The same, with room for SIZE numbers in the tables: those of short strands take little.
    fn rest<const SIZE: usize>(&self, at: Place, work: &mut [u16]) -> usize
        requires walked { WalkedIn self.now at }
        requires work_room { work_size (length self.now.motif.bases.now) (length self.now.molecule.bases.now) ≤ length work.old }
        requires table_room { 5 * (length self.now.motif.bases.now + 1) + length self.now.molecule.bases.now < SIZE }
        requires size { SIZE ≤ LONG_SIZE }
        ensures { result ≡ longest_in self.now }
    {
        let mut tables = [0u16; SIZE];
        self.rest_lent(at, work, &mut tables)
    }
}

// The last base of what is passed at l: the right end of the arc that begins there, if it lies before hi; else l itself.
fn arc_within(qm: &[u16], l: usize, hi: usize) -> usize
    requires { l < length qm.now }
    ensures { ArcWithin qm.now l hi result }
{
    let r = arcs::mate(qm, l);
    if r <= l {
        return l;
    }
    if hi <= r {
        return l;
    }
    r
}

// Whether the window lo..hi of the molecule takes the whole motif, with tables of the motif that were filled before. A base whose arc leaves the window is
// unbonded there. The walk stops where the rest of the window cannot take the rest of the motif: it has fewer bases, or the bound behind an arc with arcs
// inside says so. By a while: it goes on behind each arc. The strands are copied before the loop, as in `whole_end`.
pub fn carries<'a>(
    motif: &Strand<'a>,
    tables: &mut [u16],
    molecule: &Strand<'a>,
    lo: usize,
    hi: usize,
    work: &mut [u16],
) -> bool
    requires proper { on_strand (Proper motif_side least_motif greatest_length) motif.now }
    requires proper_2 { on_strand (Proper molecule_side least_molecule greatest_length) molecule.now }
    requires lo_le_hi { (lo ≤ hi) × (hi ≤ length molecule.now.bases.now) }
    requires work_room { work_size (length motif.now.bases.now) (length molecule.now.bases.now) ≤ length work.old }
    requires tables_for { on_strand TablesFor motif.now (length molecule.now.bases.now) tables.old }
    ensures tells { Tells result (on_pair Carried motif.now molecule.now lo hi) }
    ensures tables_for_2 { on_strand TablesFor motif.now (length molecule.now.bases.now) tables.new }
{
    let motif = *motif;
    let molecule = *molecule;
    let m = motif.bases.len();
    let mut from = 0;
    let mut l = lo;
    while l < hi {
        if m <= from {
            return true;
        }
        if hi - l < m - from {
            return false;
        }
        let r = arc_within(molecule.mates, l, hi);
        if l < r {
            if unbonded(molecule.mates, l + 1, r) {
                let pair = pair_of(motif, tables, molecule);
                from = hairpin_end(&pair, from, l, r);
            } else {
                let most = bounds::fill(
                    motif.bases,
                    motif.mates,
                    molecule.bases,
                    from,
                    l,
                    r + 1,
                    tables,
                );
                if most + (hi - (r + 1)) < m {
                    return false;
                }
                let pair = pair_of(motif, tables, molecule);
                from = arc_end(&pair, from, most, l, r, work);
            }
            l = r + 1;
        } else {
            let pair = pair_of(motif, tables, molecule);
            from = row::next_of(&pair.motif, from, molecule.bases[l]);
            l += 1;
        }
    }
    m <= from
}

// Whether the motif embeds in the molecule: the window is the whole of it.
pub fn embeds(motif: &Strand, tables: &mut [u16], molecule: &Strand, work: &mut [u16]) -> bool
    requires proper { on_strand (Proper motif_side least_motif greatest_length) motif.now }
    requires proper_2 { on_strand (Proper molecule_side least_molecule greatest_length) molecule.now }
    requires work_room { work_size (length motif.now.bases.now) (length molecule.now.bases.now) ≤ length work.old }
    requires tables_for { on_strand TablesFor motif.now (length molecule.now.bases.now) tables.old }
    ensures value { result ≡ embeds_in (lent motif.now) (lent molecule.now) }
    ensures tables_for_2 { on_strand TablesFor motif.now (length molecule.now.bases.now) tables.new }
{
    carries(motif, tables, molecule, 0, molecule.bases.len(), work)
}

// The length of the longest closed prefix of the motif that embeds in the molecule. It asks for what the rules of the direct calls accept: the call
// length checks both strands before. Where the molecule has no arc, no tables are made.
pub fn prefix_length(motif: &Strand, molecule: &Strand, work: &mut [u16]) -> usize
    requires proper { on_strand (Proper motif_side least_motif greatest_length) motif.now }
    requires proper_2 { on_strand (Proper molecule_side least_molecule greatest_length) molecule.now }
    requires work_room { work_size (length motif.now.bases.now) (length molecule.now.bases.now) ≤ length work.old }
    ensures { result ≡ on_pair (longest letters_match) motif.now molecule.now }
{
    let strands = Strands {
        motif: *motif,
        molecule: *molecule,
    };
    let m = motif.bases.len();
    let n = molecule.bases.len();
    let at = strands.first_arc();
    if n <= at.base || m <= at.from {
        return at.from;
    }
    if m <= SHORT_MOTIF && n <= SHORT_MOLECULE {
        return strands.rest::<SHORT_SIZE>(at, work);
    }
    strands.rest::<LONG_SIZE>(at, work)
}
