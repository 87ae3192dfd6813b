// The calls as C sees them (include/lakhido.h). Each gives the call's answer as a struct of numbers and leaves every buffer as the call does.
#![tactic(auto)]

ghost use Rattle.std.specs.Prelude.{◌≡◌, length};
ghost use Rattle.strand.specs.Strands.{strand_of, check_answer};
ghost use Rattle.embedding.specs.Longest.{verify_answer, embeds};
ghost use Rattle.refusals.specs.Rules.{WorkKept};
ghost use Rattle.matcher.specs.Answers.{length_verdict, length_answer, show_verdict, show_answer, PlacesShown};
ghost use Rattle.window.specs.Answers.{window_answer};
ghost use Rattle.calls.specs.Calls.{effect, add_outcome, remove_outcome, query_verdict, query_outcome};
ghost use Rattle.calls.specs.Batch.{batch_verdict, batch_outcome};
ghost use Rattle.interface.specs.Interface.{check_in_c, match_in_c, window_in_c, verify_in_c, add_in_c, remove_in_c};
ghost use Rattle.interface.specs.Interface.{effect_in_c, queried_in_c, query_effect_in_c};
ghost use Rattle.interface.specs.Interface.{batched_in_c, batch_effect_in_c};

use interface::{Answer, BatchAnswer, WindowAnswer};
use strand::Strand;

#[unsafe(no_mangle)]
pub extern "C" fn lakhido_check<'a>(bases: &'a [u8], mates: &'a [u16]) -> Answer
    ensures { result ≡ check_in_c (check_answer bases.now mates.now) }
{
    strand::check(&Strand { bases, mates }).into()
}

#[unsafe(no_mangle)]
pub extern "C" fn lakhido_length<'p, 'q>(
    p: &'p [u8],
    pm: &'p [u16],
    q: &'q [u8],
    qm: &'q [u16],
    work: &mut [u16],
) -> Answer
    ensures { (result ≡ match_in_c (length_answer p.now pm.now q.now qm.now (length work.old)))
        × WorkKept (length_verdict p.now pm.now q.now qm.now (length work.old)) work.old work.new }
{
    let motif = Strand {
        bases: p,
        mates: pm,
    };
    let molecule = Strand {
        bases: q,
        mates: qm,
    };
    matcher::length(&motif, &molecule, work).into()
}

#[unsafe(no_mangle)]
pub extern "C" fn lakhido_show<'p, 'q>(
    p: &'p [u8],
    pm: &'p [u16],
    q: &'q [u8],
    qm: &'q [u16],
    places: &mut [u16],
    work: &mut [u16],
) -> Answer
    ensures { (result ≡ match_in_c (show_answer p.now pm.now q.now qm.now (length places.old) (length work.old)))
        × PlacesShown (show_answer p.now pm.now q.now qm.now (length places.old) (length work.old))
        p.now pm.now q.now qm.now places.old places.new
        × WorkKept (show_verdict p.now pm.now q.now qm.now (length places.old) (length work.old))
        work.old work.new }
{
    let motif = Strand {
        bases: p,
        mates: pm,
    };
    let molecule = Strand {
        bases: q,
        mates: qm,
    };
    matcher::show(&motif, &molecule, places, work).into()
}

#[unsafe(no_mangle)]
pub extern "C" fn lakhido_window<'p, 'q>(
    p: &'p [u8],
    pm: &'p [u16],
    q: &'q [u8],
    qm: &'q [u16],
    work: &mut [u16],
) -> WindowAnswer
    ensures { (result ≡ window_in_c (window_answer p.now pm.now q.now qm.now (length work.old)))
        × WorkKept (length_verdict p.now pm.now q.now qm.now (length work.old))
        work.old work.new }
{
    let motif = Strand {
        bases: p,
        mates: pm,
    };
    let molecule = Strand {
        bases: q,
        mates: qm,
    };
    window::window(&motif, &molecule, work).into()
}

#[unsafe(no_mangle)]
pub extern "C" fn lakhido_verify<'p, 'q>(
    p: &'p [u8],
    pm: &'p [u16],
    q: &'q [u8],
    qm: &'q [u16],
    places: &[u16],
) -> Answer
    ensures { result ≡ verify_in_c (verify_answer p.now pm.now q.now qm.now places.now) }
{
    let motif = Strand {
        bases: p,
        mates: pm,
    };
    let molecule = Strand {
        bases: q,
        mates: qm,
    };
    embedding::verify(&motif, &molecule, places).into()
}

#[unsafe(no_mangle)]
pub extern "C" fn lakhido_add<'a>(
    catalog: &mut [u8],
    cache: &mut [u8],
    d: usize,
    bases: &'a [u8],
    mates: &'a [u16],
) -> Answer
    ensures { effect result catalog.new cache.new
        ≡ effect_in_c add_in_c (add_outcome catalog.old cache.old d (strand_of bases.now mates.now)) }
{
    catalog::add(catalog, cache, d, &Strand { bases, mates }).into()
}

#[unsafe(no_mangle)]
pub extern "C" fn lakhido_remove(catalog: &mut [u8], cache: &mut [u8], d: usize) -> Answer
    ensures { effect result catalog.new cache.new
        ≡ effect_in_c remove_in_c (remove_outcome catalog.old cache.old d) }
{
    catalog::remove(catalog, cache, d).into()
}

#[unsafe(no_mangle)]
pub extern "C" fn lakhido_query<'p>(
    catalog: &[u8],
    cache: &mut [u8],
    p: &'p [u8],
    pm: &'p [u16],
    work: &mut [u16],
    hits: &mut [u16],
) -> Answer
    ensures { (queried_in_c result cache.new hits.new
        ≡ query_effect_in_c (query_outcome embeds catalog.now cache.old (strand_of p.now pm.now) (length work.old) hits.old))
        × WorkKept (query_verdict catalog.now cache.old (strand_of p.now pm.now) (length work.old) (length hits.old))
        work.old work.new }
{
    let motif = Strand {
        bases: p,
        mates: pm,
    };
    catalog::query(catalog, cache, &motif, work, hits).into()
}

#[unsafe(no_mangle)]
pub extern "C" fn lakhido_batch(
    catalog: &[u8],
    cache: &mut [u8],
    motifs: &[u8],
    work: &mut [u16],
    hits: &mut [u16],
) -> BatchAnswer
    ensures { (batched_in_c result cache.new hits.new
        ≡ batch_effect_in_c
        (batch_outcome embeds catalog.now motifs.now (length work.old) cache.old hits.old))
        × WorkKept (batch_verdict catalog.now cache.old motifs.now (length work.old) (length hits.old))
        work.old work.new }
{
    batch::batch(catalog, cache, motifs, work, hits).into()
}
