// The search for the tightest window: of the windows that carry the motif the shortest, of these the first. A window carries what any window in it does, so
// one walk that fails rules out every window that lies in the one walked over. The search goes from start to start where the motif's first base may stand,
// asks for windows shorter than the best so far alone, and walks over a window that is wider than that by a reach: the wider it is, the more starts one
// failure rules out. A window that carries the motif is narrowed by halving, its end first, then its start.
ghost use Rattle.std.specs.Prelude.{◌≡◌, ◌+◌, ◌-◌, ◌*◌, ◌≤◌, ◌<◌, length};
ghost use Rattle.lists.proofs.ListLaws.{Tells};
ghost use Rattle.refusals.specs.Rules.{motif_side, molecule_side, work_size};
ghost use Rattle.strand.specs.Strands.{Proper, least_motif, least_molecule, greatest_length};
ghost use Rattle.strand.specs.Lent.{on_strand, on_pair};
ghost use Rattle.window.specs.Search.{Found};

use rows::tables::{LONG_SIZE, SHORT_MOLECULE, SHORT_MOTIF, SHORT_SIZE};
use strand::Strand;

// A window of the molecule: `length` bases from `start`.
#[derive(Clone, Copy, Debug, PartialEq, Eq)]
pub struct Window {
    pub start: usize,
    pub length: usize,
}

// How far the search has come, with the best window so far. The next window to look for starts at `next` or later; none from there on that ends before `low`
// carries the motif. `reach` is by how much a walk goes further than a window that is shorter than the best.
#[derive(Clone, Copy)]
struct Progress {
    best: Option<Window>,
    next: usize,
    low: usize,
    reach: usize,
}

impl Progress {
    ghost use Rattle.window.specs.Search.{limit_of};

    // A window that is shorter than the best so far has fewer bases than this. Where there is none, any window of a molecule of n bases has.
    fn limit(&self, n: usize) -> usize
        requires { n ≤ 4096 }
        ensures { result ≡ limit_of n self.now.best }
    {
        match self.best {
            Some(best) => best.length,
            None => n + 1,
        }
    }
}

// What is searched: a motif that has bases, and a molecule, both as the rules let them pass.
#[derive(Clone, Copy)]
struct Strands<'a> {
    motif: Strand<'a>,
    molecule: Strand<'a>,
    ghost proper: { on_strand (Proper motif_side least_motif greatest_length) motif },
    ghost base: { 0 < length motif.bases.now },
    ghost proper_2: { on_strand (Proper molecule_side least_molecule greatest_length) molecule },
}

impl Strands<'_> {
    ghost use Rattle.window.specs.Search.{Advanced, limit_of};
    ghost use Rattle.window.specs.InStrands.{ReadyIn, TablesIn, CarriedIn, BeginsIn, NoneBeginsIn, EndsIn, StartsIn, SeekIn, FoundIn};

    // Whether the motif's first base may stand at i: its letter fits, and i begins an arc if that base does.
    fn may_begin(&self, i: usize) -> bool
        requires { i < length self.now.molecule.bases.now }
        ensures { Tells result (BeginsIn self.now i) }
    {
        if letters::letter_class(self.motif.bases[0])
            != letters::letter_class(self.molecule.bases[i])
        {
            return false;
        }
        if self.motif.mates[0] == 0 {
            return true;
        }
        i < arcs::mate(self.molecule.mates, i)
    }

    // The lowest base from i on where the motif's first base may stand, or the molecule's length.
    fn next_begin(&self, i: usize) -> usize
        requires { i ≤ length self.now.molecule.bases.now }
        ensures { NoneBeginsIn self.now i result }
    {
        for j in i..self.molecule.bases.len() {
            if self.may_begin(j) {
                return j;
            }
        }
        self.molecule.bases.len()
    }

    // Whether the window lo..hi carries the motif.
    fn carries(&self, tables: &mut [u16], lo: usize, hi: usize, work: &mut [u16]) -> bool
        requires ready { ReadyIn self.now tables.old work.old }
        requires lo_le_hi { (lo ≤ hi) × (hi ≤ length self.now.molecule.bases.now) }
        ensures tells { Tells result (CarriedIn self.now lo hi) }
        ensures tables_for { TablesIn self.now tables.new }
    {
        walk::carries(&self.motif, tables, &self.molecule, lo, hi, work)
    }

    // The least end of a window from `lo` that carries the motif, where the window to `most` does and none that ends before `low`.
    fn least_end(
        &self,
        tables: &mut [u16],
        lo: usize,
        low: usize,
        most: usize,
        work: &mut [u16],
    ) -> usize
        requires ready { ReadyIn self.now tables.old work.old }
        requires lo_le_low { (lo ≤ low) × (most ≤ length self.now.molecule.bases.now) }
        requires ends_at { EndsIn self.now lo low most }
        ensures ends_at_2 { EndsIn self.now lo result result × ((low ≤ result) × (result ≤ most)) }
        ensures tables_for { TablesIn self.now tables.new }
    {
        let mut a = low;
        let mut e = most;
        while a < e {
            let mid = a + (e - a) / 2;
            if self.carries(tables, lo, mid, work) {
                e = mid;
            } else {
                a = mid + 1;
            }
        }
        e
    }

    // The last start of a window to `hi` that carries the motif, where the window from `first` does and none from behind `last`.
    fn last_start(
        &self,
        tables: &mut [u16],
        first: usize,
        last: usize,
        hi: usize,
        work: &mut [u16],
    ) -> usize
        requires ready { ReadyIn self.now tables.old work.old }
        requires last_le_hi { (last ≤ hi) × (hi ≤ length self.now.molecule.bases.now) }
        requires starts_at { StartsIn self.now first last hi }
        ensures starts_at_2 { StartsIn self.now result result hi × ((first ≤ result) × (result ≤ last)) }
        ensures tables_for { TablesIn self.now tables.new }
    {
        let mut s = first;
        let mut b = last;
        while s < b {
            let mid = b - (b - s) / 2;
            if self.carries(tables, mid, hi, work) {
                s = mid;
            } else {
                b = mid - 1;
            }
        }
        s
    }

    // Whether the window from `first` to `end` carries the motif, where that from `next` does.
    fn still_carries(
        &self,
        tables: &mut [u16],
        next: usize,
        first: usize,
        end: usize,
        work: &mut [u16],
    ) -> bool
        requires ready { ReadyIn self.now tables.old work.old }
        requires next_le_first { (next ≤ first) × ((first ≤ end) × (end ≤ length self.now.molecule.bases.now)) }
        requires carried { CarriedIn self.now next end }
        ensures tells { Tells result (CarriedIn self.now first end) }
        ensures tables_for { TablesIn self.now tables.new }
    {
        if first <= next {
            return true;
        }
        self.carries(tables, first, end, work)
    }

    // `end` is the least end of a window from `at.next` that carries the motif. Of those that end there and are shorter than the best so far the shortest
    // becomes the best, if there is one; the search goes on with the starts behind, and with ends behind `end`.
    fn narrow(&self, tables: &mut [u16], at: Progress, end: usize, work: &mut [u16]) -> Progress
        requires ready { ReadyIn self.now tables.old work.old }
        requires seek { SeekIn self.now at }
        requires ends_at { EndsIn self.now at.next end end
            × ((end ≤ length self.now.molecule.bases.now) × (0 < limit_of (length self.now.molecule.bases.now) at.best)) }
        ensures seek_2 { SeekIn self.now result × (result.low ≡ end + 1) }
        ensures tables_for { TablesIn self.now tables.new }
    {
        let limit = at.limit(self.molecule.bases.len());
        let first = at.next.max((end + 1).saturating_sub(limit));
        let low = end + 1;
        let reach = at.reach / 2;
        if !self.still_carries(tables, at.next, first, end, work) {
            return Progress {
                next: first,
                low,
                reach,
                ..at
            };
        }
        let start = self.last_start(tables, first, end - self.motif.bases.len(), end, work);
        let best = Some(Window {
            start,
            length: end - start,
        });
        Progress {
            best,
            next: start + 1,
            low,
            reach,
        }
    }

    // Goes on to the next start that is left: a window from there which is shorter than the best does not end before `low`, and the motif's first base may
    // stand there.
    fn advance(&self, at: Progress) -> Progress
        requires { SeekIn self.now at
            × ((at.low ≤ length self.now.molecule.bases.now) × (0 < limit_of (length self.now.molecule.bases.now) at.best)) }
        ensures { SeekIn self.now result × Advanced (length self.now.molecule.bases.now) (length self.now.motif.bases.now) at result }
    {
        let limit = at.limit(self.molecule.bases.len());
        let from = at.next.max((at.low + 1).saturating_sub(limit));
        let next = self.next_begin(from);
        let low = at.low.max(next + self.motif.bases.len());
        Progress { next, low, ..at }
    }

    // One step: the next start that is left is ruled out with those behind it, or a window is found there.
    fn step(&self, tables: &mut [u16], at: Progress, work: &mut [u16]) -> Progress
        requires ready { ReadyIn self.now tables.old work.old }
        requires seek { SeekIn self.now at
            × ((at.low ≤ length self.now.molecule.bases.now) × (0 < limit_of (length self.now.molecule.bases.now) at.best)) }
        ensures seek_2 { SeekIn self.now result × (at.low < result.low) }
        ensures tables_for { TablesIn self.now tables.new }
    {
        let n = self.molecule.bases.len();
        let here = self.advance(at);
        if n < here.low {
            return here;
        }
        let hi = n.min(here.next + here.limit(n) - 1 + here.reach);
        if !self.carries(tables, here.next, hi, work) {
            let reach = n.min(2 * here.reach + 1);
            return Progress {
                low: hi + 1,
                reach,
                ..here
            };
        }
        let end = self.least_end(tables, here.next, here.low, hi, work);
        self.narrow(tables, here, end, work)
    }

    // The search with borrowed room for the tables of the motif: step by step, until every window is ruled out or none can be shorter than the best.
    fn search_lent(&self, work: &mut [u16], tables: &mut [u16]) -> Option<Window>
        requires work_room { work_size (length self.now.motif.bases.now) (length self.now.molecule.bases.now) ≤ length work.old }
        requires table_room { 5 * (length self.now.motif.bases.now + 1) + length self.now.molecule.bases.now < length tables.old }
        ensures { FoundIn self.now result }
    {
        walk::prepare(&self.motif, tables);
        let mut at = Progress {
            best: None,
            next: 0,
            low: 0,
            reach: 0,
        };
        while at.low <= self.molecule.bases.len() {
            if at.limit(self.molecule.bases.len()) <= self.motif.bases.len() {
                return at.best;
            }
            at = self.step(tables, at, work);
        }
        at.best
    }

    // The same, with room for SIZE numbers in the tables: those of short strands take little.
    fn search<const SIZE: usize>(&self, work: &mut [u16]) -> Option<Window>
        requires work_room { work_size (length self.now.motif.bases.now) (length self.now.molecule.bases.now) ≤ length work.old }
        requires table_room { 5 * (length self.now.motif.bases.now + 1) + length self.now.molecule.bases.now < SIZE }
        requires size { SIZE ≤ LONG_SIZE }
        ensures { FoundIn self.now result }
    {
        let mut tables = [0u16; SIZE];
        self.search_lent(work, &mut tables)
    }
}

// The tightest window of the molecule that carries the motif, for what the rules of the call let pass, if one does. A motif with no bases needs no search: it
// is carried by the window of no bases at the molecule's start.
pub fn tightest(motif: &Strand, molecule: &Strand, work: &mut [u16]) -> Option<Window>
    requires proper { on_strand (Proper motif_side least_motif greatest_length) motif.now }
    requires proper_2 { on_strand (Proper molecule_side least_molecule greatest_length) molecule.now }
    requires work_room { work_size (length motif.now.bases.now) (length molecule.now.bases.now) ≤ length work.old }
    ensures { on_pair Found motif.now molecule.now result }
{
    if motif.bases.is_empty() {
        return Some(Window {
            start: 0,
            length: 0,
        });
    }
    let strands = Strands {
        motif: *motif,
        molecule: *molecule,
    };
    if motif.bases.len() <= SHORT_MOTIF && molecule.bases.len() <= SHORT_MOLECULE {
        return strands.search::<SHORT_SIZE>(work);
    }
    strands.search::<LONG_SIZE>(work)
}
