// The key of a motif, by which a cache finds its slot.
ghost use Rattle.std.specs.Prelude.{◌≡◌, ◌≤◌, length};
ghost use Rattle.strand.specs.Strands.{key, greatest_length};
ghost use Rattle.strand.specs.Lent.{lent};

use crate::Strand;

// The sum of the base bytes and the mates. Callers have accepted the motif.
pub fn key(motif: &Strand) -> usize
    requires { (length motif.now.bases.now ≤ greatest_length) × (length motif.now.mates.now ≡ length motif.now.bases.now) }
    ensures { result ≡ key (lent motif.now) }
{
    let Strand { bases, mates } = *motif;
    let mut sum: usize = 0;
    for (i, base) in bases.iter().enumerate() {
        sum += *base as usize + mates[i] as usize;
    }
    sum
}
