// The calls of the library, as README shows them. Prints `found` where the motif was found.
#![tactic(auto)]

use refusals::Refusal;
use std::io;
use strand::Strand;

// Adds a hairpin under number 0 and asks for the motif GC with its bond; answers how many molecules have it, or a refusal. `catalog` and `cache` are zeroed
// blocks of 512 bytes, `hits` has an entry for each catalog block, `work` 64 * (2 + 1) + 8 * 160 entries.
fn first_query(
    catalog: &mut [u8],
    cache: &mut [u8],
    work: &mut [u16],
    hits: &mut [u16],
) -> Result<usize, Refusal> {
    let hairpin = Strand {
        bases: b"GAC",
        mates: &[2, 1, 0],
    };
    let motif = Strand {
        bases: b"GC",
        mates: &[1, 0],
    };
    catalog::add(catalog, cache, 0, &hairpin)?;
    let found = catalog::query(catalog, cache, &motif, work, hits)?;
    Ok(found.count)
}

fn main(rt: HostRuntime) -> io::Result<()> {
    let mut catalog = [0u8; 1024];
    let mut cache = [0u8; 512];
    let mut work = [0u16; 1472];
    let mut hits = [0u16; 2];
    if first_query(&mut catalog, &mut cache, &mut work, &mut hits) == Ok(1) {
        println!(rt; "found")?;
    }
    Ok(())
}
