// A motif and a molecule side by side.
ghost use Rattle.arcs.specs.Arcs.{Sound};

use rows::motif::Motif;

// A motif with its tables, and a molecule.
#[derive(Clone, Copy)]
pub struct Pair<'a> {
    pub motif: Motif<'a>,
    pub q: &'a [u8],
    pub qm: &'a [u16],
    ghost sound: { Sound motif.bases.now motif.mates.now q.now qm.now },
}
