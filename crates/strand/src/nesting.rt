// Mates: in range, mutual, and no two arcs crossing.
ghost use Rattle.std.specs.Prelude.{◌≡◌, not, ℕ, ◌≤◌, ◌<◌, length};
ghost use Rattle.lists.specs.Vocabulary.{nth, some, lowest};
ghost use Rattle.lists.proofs.ListLaws.{Tells};
ghost use Rattle.strand.specs.Strands.{mate_outside, not_mutual, crosses, crossed_at, Inside, Paired};
ghost use Rattle.strand.specs.Nesting.{Closes};

// The largest mate, and 0 without mates; its contract says only that no mate is above it. No branch depends on a mate.
fn largest_mate(mates: &[u16]) -> u16
    ensures { (i : ℕ) → i < length mates.now → nth mates.now i ≤ result }
{
    let mut largest: u16 = 0;
    for mate in mates {
        largest = largest.max(*mate);
    }
    largest
}

// The lowest position whose mate is at or above the length, or the length. It is looked for only where there may be one.
pub(crate) fn lowest_outside(mates: &[u16]) -> usize
    ensures { result ≡ lowest (length mates.now) (mate_outside mates.now) }
{
    if (largest_mate(mates) as usize) < mates.len() {
        return mates.len();
    }
    mates
        .iter()
        .position(|mate| mates.len() <= *mate as usize)
        .unwrap_or(mates.len())
}

// The lowest position whose mate's mate is another position, or the length. Callers have found the mates in range.
pub(crate) fn lowest_not_mutual(mates: &[u16]) -> usize
    requires { Inside (nth mates.now) (length mates.now) }
    ensures { result ≡ lowest (length mates.now) (not_mutual mates.now) }
{
    for (i, mate) in mates.iter().enumerate() {
        if mates[*mate as usize] as usize != i {
            return i;
        }
    }
    mates.len()
}

// Whether the arc that begins at i, if any, holds the mate of each base inside it, where the arcs that begin later do. The walk jumps over
// the arcs inside, so all walks together take linear time.
fn closes(mates: &[u16], i: usize) -> bool
    requires inside { Inside (nth mates.now) (length mates.now) }
    requires paired { Paired (nth mates.now) (length mates.now) }
    requires i_in_bounds { i < length mates.now }
    requires by_index { (k : ℕ) → i < k → k < length mates.now → Closes (nth mates.now) k }
    ensures { Tells result (Closes (nth mates.now) i) }
{
    let end = mates[i] as usize;
    let mut k = i + 1;
    while k < end {
        let e = mates[k] as usize;
        if e < k || end <= e {
            return false;
        }
        k = e + 1;
    }
    true
}

// Whether no two arcs cross, in linear time. Callers have found the mates in range and mutual.
pub(crate) fn arcs_close(mates: &[u16]) -> bool
    requires inside { Inside (nth mates.now) (length mates.now) }
    requires paired { Paired (nth mates.now) (length mates.now) }
    ensures { result ≡ not (some (length mates.now) (crossed_at mates.now)) }
{
    for i in (0..mates.len()).rev() {
        if !closes(mates, i) {
            return false;
        }
    }
    true
}

// Whether the arcs (a, b) and (i, j) cross.
fn cross(a: usize, b: usize, i: usize, j: usize) -> bool
    ensures { result ≡ crosses a b i j }
{
    a < i && i < b && b < j
}

// Whether an arc that begins below i crosses the arc that begins at i.
fn crossed(mates: &[u16], i: usize) -> bool
    requires { i < length mates.now }
    ensures { result ≡ crossed_at mates.now i }
{
    let j = mates[i] as usize;
    for a in 0..i {
        if cross(a, mates[a] as usize, i, j) {
            return true;
        }
    }
    false
}

// The lowest left end of an arc that an earlier arc crosses, or the length: quadratic, for refused strands only.
pub(crate) fn lowest_crossed(mates: &[u16]) -> usize
    ensures { result ≡ lowest (length mates.now) (crossed_at mates.now) }
{
    for i in 0..mates.len() {
        if crossed(mates, i) {
            return i;
        }
    }
    mates.len()
}
