// The fold of a strand: the number of its arcs, and its depth.
ghost use Rattle.std.specs.Prelude.{◌≡◌, ◌<◌, ◌≤◌, length};
ghost use Rattle.lists.specs.Vocabulary.{nth};
ghost use Rattle.strand.specs.Strands.{Nested, greatest_length};
ghost use Rattle.strand.specs.Folds.{arc_count, depth_of, fold_of};

use crate::Fold;

// How many arcs there are: each is counted at its left end. The place is counted in 16 bits too, so that the processor takes
// several mates at a time: with the place of `enumerate` it takes twice as long.
fn arc_count(mates: &[u16]) -> u16
    requires { length mates.now ≤ greatest_length }
    ensures { result ≡ arc_count mates.now }
{
    let mut arcs: u16 = 0;
    let mut place: u16 = 0;
    for mate in mates {
        arcs += (place < *mate) as u16;
        place += 1;
    }
    arcs
}

// The depth in one walk: an arc is open from its left end to before its right one, and the depth is the most that are open at once. No branch depends on a
// mate.
fn depth_of(mates: &[u16]) -> usize
    requires { Nested (nth mates.now) (length mates.now) }
    ensures { result ≡ depth_of mates.now }
{
    let mut level: usize = 0;
    let mut depth: usize = 0;
    for (i, mate) in mates.iter().enumerate() {
        let j = *mate as usize;
        level = level + (i < j) as usize - (j < i) as usize;
        depth = depth.max(level);
    }
    depth
}

// Both numbers; without arcs there is nothing to walk for. Callers have accepted the strand.
pub fn fold_of(mates: &[u16]) -> Fold
    requires nested { Nested (nth mates.now) (length mates.now) }
    requires mates_len_bound { length mates.now ≤ greatest_length }
    ensures { result ≡ fold_of mates.now }
{
    let arcs = arc_count(mates) as usize;
    if arcs == 0 {
        return Fold { arcs, depth: 0 };
    }
    Fold {
        arcs,
        depth: depth_of(mates),
    }
}
