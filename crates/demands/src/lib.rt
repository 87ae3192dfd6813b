// The public calls, each with what the three demands say of it (specs/Meets): proved from the contracts of the calls alone, so that a weaker contract is
// refused here.
#![tactic(auto)]

ghost use Rattle.strand.specs.Lent.{lent, on_strand, on_pair};
ghost use Rattle.demands.specs.Meets.{CheckMeets, LengthMeets, ShowMeets, VerifyMeets, WindowMeets, AddMeets, RemoveMeets, QueryMeets, BatchMeets};

use embedding::Verified;
use refusals::Refusal;
use strand::Strand;

pub fn check(molecule: &Strand) -> strand::Checked
    ensures { on_strand CheckMeets molecule.now result }
{
    strand::check(molecule)
}

pub fn length(motif: &Strand, molecule: &Strand, work: &mut [u16]) -> matcher::Matched
    ensures { on_pair LengthMeets motif.now molecule.now work.old result work.new }
{
    matcher::length(motif, molecule, work)
}

pub fn show(
    motif: &Strand,
    molecule: &Strand,
    places: &mut [u16],
    work: &mut [u16],
) -> matcher::Matched
    ensures { on_pair ShowMeets motif.now molecule.now places.old work.old result
        places.new work.new }
{
    matcher::show(motif, molecule, places, work)
}

pub fn verify(motif: &Strand, molecule: &Strand, places: &[u16]) -> Result<Verified, Refusal>
    ensures { on_pair VerifyMeets motif.now molecule.now places.now result }
{
    embedding::verify(motif, molecule, places)
}

pub fn window(motif: &Strand, molecule: &Strand, work: &mut [u16]) -> window::Windowed
    ensures { on_pair WindowMeets motif.now molecule.now work.old result work.new }
{
    window::window(motif, molecule, work)
}

pub fn add(catalog: &mut [u8], cache: &mut [u8], d: usize, molecule: &Strand) -> catalog::Added
    ensures { AddMeets catalog.old cache.old d (lent molecule.now) result
        catalog.new cache.new }
{
    catalog::add(catalog, cache, d, molecule)
}

pub fn remove(catalog: &mut [u8], cache: &mut [u8], d: usize) -> catalog::Removed
    ensures { RemoveMeets catalog.old cache.old d result catalog.new cache.new }
{
    catalog::remove(catalog, cache, d)
}

pub fn query(
    catalog: &[u8],
    cache: &mut [u8],
    motif: &Strand,
    work: &mut [u16],
    hits: &mut [u16],
) -> catalog::Queried
    ensures { QueryMeets catalog.now cache.old (lent motif.now) work.old
        hits.old result cache.new work.new hits.new }
{
    catalog::query(catalog, cache, motif, work, hits)
}

pub fn batch(
    catalog: &[u8],
    cache: &mut [u8],
    motifs: &[u8],
    work: &mut [u16],
    hits: &mut [u16],
) -> batch::Batched
    ensures { BatchMeets catalog.now cache.old motifs.now work.old hits.old result
        cache.new work.new hits.new }
{
    batch::batch(catalog, cache, motifs, work, hits)
}
