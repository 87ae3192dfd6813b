// The molecules that some motif of a batch has to search: the mates of each are decoded once, and then it is searched for every motif that has to search it,
// motif by motif.
ghost use Rattle.std.specs.Prelude.{◌≡◌, true, ◌<◌, ◌≤◌, [], length, take, get_or};
ghost use Rattle.lists.specs.Vocabulary.{select};
ghost use Rattle.octets.specs.Octets.{map_size, map_bit, map_bytes};
ghost use Rattle.block.specs.Block.{block_count};
ghost use Rattle.block.specs.Content.{block_bases};
ghost use Rattle.embedding.specs.Longest.{embeds};
ghost use Rattle.calls.specs.Buffers.{most_catalog_blocks, held, molecule_at};
ghost use Rattle.calls.specs.Motifs.{most_motifs, motif_of};
ghost use Rattle.judge.specs.Judge.{SoundCatalog};
ghost use Rattle.batch.specs.Steps.{Ready, hits_in, in_some, Asked, Wanted, BondsTo, Searching, MoleculeRead, HitsTo, HasRoom};

use crate::Maps;
use block::layout;
use motifs::{Motifs, Tables};
use strand::Strand;

// A row of mates for each block of the largest catalog.
type Bonds = [[u16; layout::BLOCK_BASES]; judge::MOST_CATALOG_BLOCKS];

// Where the mates begin in a molecule block.
const MOLECULE_MATES_AT: usize = layout::MOLECULE_START + layout::BLOCK_BASES;

// The bases of molecule d, where they stand in the catalog.
fn bases_of(catalog: &[u8], d: usize) -> &[u8]
    requires { SoundCatalog catalog.now × (held catalog.now d ≡ true) }
    ensures { result.now ≡ (molecule_at catalog.now d).bases }
{
    let b = layout::block_at(catalog, d);
    let e = layout::MOLECULE_START + usize::from(b[1]);
    &b[layout::MOLECULE_START..e]
}

// The mates of molecule d, to the start of the entries. `read_mates` of motifs is alike: each says what the block of its own kind has.
fn read_bonds(catalog: &[u8], d: usize, bonds: &mut [u16])
    requires { SoundCatalog catalog.now × (held catalog.now d ≡ true) × (length bonds.old ≡ block_bases) }
    ensures { take (length (molecule_at catalog.now d).bases) bonds.new ≡ (molecule_at catalog.now d).mates }
{
    let src = layout::block_at(catalog, d);
    let n = usize::from(src[1]);
    octets::scan::read_words(&src[MOLECULE_MATES_AT..], &mut bonds[..n]);
}

// The mates of every molecule of the map `wanted`; how many molecules they are.
fn read_all(catalog: &[u8], wanted: &[u8], bonds: &mut Bonds) -> usize
    requires { Wanted catalog.now wanted.now }
    ensures { (result ≡ length (select (block_count catalog.now) (map_bit wanted.now 0)))
        × BondsTo catalog.now (map_bit wanted.now 0) bonds.new (block_count catalog.now) }
{
    let mut read = 0;
    for d in 0..layout::block_count(catalog) {
        if octets::bits::test(wanted, 0, d) {
            read_bonds(catalog, d, &mut bonds[d]);
            read += 1;
        }
    }
    read
}

// What is searched, motif by motif: the molecules of a catalog, the mates of those that some motif asks for, and the map of what each motif asks for.
// Nobody copies it, so it is no Clone.
#[derive(Drop)]
struct Search<'a> {
    catalog: &'a [u8],
    bonds: &'a Bonds,
    motifs: &'a Motifs<'a>,
    todo: &'a Maps,
    ghost searching: { Searching catalog.now motifs.now.blocks.now todo.now bonds.now },
}

// What the walk writes into as it searches: no Clone, since it lends a slice to write.
#[derive(Drop)]
struct Room<'a> {
    tables: Tables,
    work: &'a mut [u16],
}

impl Search<'_> {
    // Whether motif t embeds in molecule d, which was read.
    fn embeds_at(&self, t: usize, d: usize, room: &mut Room) -> bool
        requires { Ready self.now.motifs.now.blocks.now room.old.tables (length room.old.work.now)
            × (t < block_count self.now.motifs.now.blocks.now) × MoleculeRead self.now.catalog.now self.now.bonds.now d }
        ensures { (result ≡ embeds (motif_of self.now.motifs.now.blocks.now t) (molecule_at self.now.catalog.now d))
            × Ready self.now.motifs.now.blocks.now room.new.tables (length room.new.work.now) }
    {
        let q = bases_of(self.catalog, d);
        let rows = self.bonds;
        let molecule = Strand {
            bases: q,
            mates: &rows[d][..q.len()],
        };
        let motif = self.motifs.motif_at(t);
        let Room { tables, work } = room;
        walk::embeds(&motif, &mut tables[t], &molecule, work)
    }

    // The hits of motif t among the molecules that it asks for.
    fn search_motif(&self, t: usize, room: &mut Room) -> [u8; layout::MAP_SIZE]
        requires { Ready self.now.motifs.now.blocks.now room.old.tables (length room.old.work.now)
            × (t < block_count self.now.motifs.now.blocks.now) }
        ensures { (result ≡ map_bytes (hits_in self.now.motifs.now.blocks.now self.now.todo.now self.now.catalog.now t))
            × Ready self.now.motifs.now.blocks.now room.new.tables (length room.new.work.now) }
    {
        let maps = self.todo;
        let mut hits = [0u8; layout::MAP_SIZE];
        for d in 0..layout::block_count(self.catalog) {
            if octets::bits::test(&maps[t], 0, d) {
                if self.embeds_at(t, d, room) {
                    octets::bits::set(&mut hits, 0, d);
                }
            }
        }
        hits
    }

    // The hits of every motif, one motif after the other, each in all the molecules that it asks for.
    fn search_motifs(&self, room: &mut Room) -> Maps
        requires { Ready self.now.motifs.now.blocks.now room.old.tables (length room.old.work.now) }
        ensures { HitsTo self.now.motifs.now.blocks.now self.now.todo.now self.now.catalog.now result (block_count self.now.motifs.now.blocks.now) }
    {
        let mut found = [[0u8; layout::MAP_SIZE]; calls::MOST_MOTIFS];
        for t in 0..self.motifs.count() {
            found[t] = self.search_motif(t, room);
        }
        found
    }
}

// The numbers that some of the first k maps have, as one map.
fn unite(todo: &Maps, k: usize) -> [u8; layout::MAP_SIZE]
    requires { k ≤ most_motifs }
    ensures { result ≡ map_bytes (in_some k todo.now) }
{
    let mut wanted = [0u8; layout::MAP_SIZE];
    for t in 0..k {
        octets::maps::join(&mut wanted, &todo[t], 0);
    }
    wanted
}

// Search every molecule that some map of `todo` has: for each motif the map of its hits, and how many molecules were read.
pub(crate) fn search_all(
    catalog: &[u8],
    motifs: &Motifs,
    todo: &Maps,
    work: &mut [u16],
) -> (Maps, usize)
    requires { Asked catalog.now motifs.now.blocks.now todo.now × HasRoom motifs.now.blocks.now (length work.old) }
    ensures { HitsTo motifs.now.blocks.now todo.now catalog.now result.0 (block_count motifs.now.blocks.now)
        × (result.1 ≡ length (select (block_count catalog.now) (in_some (block_count motifs.now.blocks.now) todo.now))) }
{
    let wanted = unite(todo, motifs.count());
    let mut bonds = [[0u16; layout::BLOCK_BASES]; judge::MOST_CATALOG_BLOCKS];
    let read = read_all(catalog, &wanted, &mut bonds);
    let search = Search {
        catalog,
        bonds: &bonds,
        motifs,
        todo,
    };
    let mut room = Room {
        tables: motifs.tables(),
        work,
    };
    (search.search_motifs(&mut room), read)
}
