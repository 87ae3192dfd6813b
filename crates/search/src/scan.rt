// The molecules that are to be searched, one after the other.
ghost use Rattle.std.specs.Prelude.{◌≡◌, true, ◌&&◌, ◌||◌, ◌≤◌, length};
ghost use Rattle.lists.specs.Vocabulary.{select};
ghost use Rattle.strand.specs.Strands.{Proper, least_motif};
ghost use Rattle.strand.specs.Lent.{lent, on_strand};
ghost use Rattle.refusals.specs.Rules.{motif_side, work_size};
ghost use Rattle.octets.specs.Octets.{map_size, map_bit, map_bytes};
ghost use Rattle.block.specs.Block.{block_count};
ghost use Rattle.block.specs.Content.{block_bases};
ghost use Rattle.embedding.specs.Longest.{embeds};
ghost use Rattle.walk.specs.Walk.{TablesFor};
ghost use Rattle.calls.specs.Buffers.{most_catalog_blocks, most_molecule_bases, most_motif_bases, held, molecule_at};
ghost use Rattle.judge.specs.Judge.{SoundCatalog};
ghost use Rattle.search.specs.Search.{AllHeld};

use block::layout;
use strand::Strand;

// Room for the molecule of a block: beside the searcher, for no part of an array is lent by a struct that has a ghost field. No Clone: nobody copies it.
#[derive(Drop)]
struct Room {
    bases: [u8; layout::BLOCK_BASES],
    mates: [u16; layout::BLOCK_BASES],
}

// What searches for a motif: the motif, its tables, and a work slice that is long enough. No Clone, since it lends a slice to write.
#[derive(Drop)]
pub(crate) struct Searcher<'a> {
    motif: Strand<'a>,
    work: &'a mut [u16],
    tables: [u16; walk::QUERY_TABLES],
    ghost proper: { on_strand (Proper motif_side least_motif most_motif_bases) motif },
    ghost tables_of: { on_strand TablesFor motif block_bases tables },
    ghost room: { work_size (length motif.bases.now) most_molecule_bases ≤ length work.now },
}

impl<'a> Searcher<'a> {
    // The tables of the motif are made here.
    pub(crate) fn new(motif: Strand<'a>, work: &'a mut [u16]) -> Searcher<'a>
        requires proper { on_strand (Proper motif_side least_motif most_motif_bases) motif }
        requires room { work_size (length motif.bases.now) most_molecule_bases ≤ length work.old }
        ensures { result.motif ≡ motif.entry }
    {
        let mut tables = [0u16; walk::QUERY_TABLES];
        walk::prepare(&motif, &mut tables);
        Searcher {
            motif,
            work,
            tables,
        }
    }

    // Whether the motif embeds in molecule d, which is decoded into the room. Neither strand is checked again.
    fn embeds_at(&mut self, catalog: &[u8], d: usize, room: &mut Room) -> bool
        requires { SoundCatalog catalog.now × (held catalog.now d ≡ true) }
        ensures { (result ≡ embeds (lent self.old.motif) (molecule_at catalog.now d))
            × (self.new.motif ≡ self.old.motif) }
    {
        let block = layout::block_at(catalog, d);
        let decoded = codec::molecule::decode_molecule(block, &mut room.bases, &mut room.mates);
        let n = decoded.unwrap();
        let molecule = Strand {
            bases: &room.bases[..n],
            mates: &room.mates[..n],
        };
        walk::embeds(&self.motif, &mut self.tables, &molecule, self.work)
    }

    // Search every molecule of the map `todo` and put the hits into the map `found`; how many were searched.
    pub(crate) fn search_all(&mut self, catalog: &[u8], todo: &[u8], found: &mut [u8]) -> usize
        requires { SoundCatalog catalog.now × (block_count catalog.now ≤ most_catalog_blocks) × (length found.old ≡ map_size)
            × AllHeld catalog.now todo.now }
        ensures { (result ≡ length (select (block_count catalog.now) (map_bit todo.now 0)))
            × (found.new ≡ map_bytes (λ d. map_bit found.old 0 d
            || (map_bit todo.now 0 d && embeds (lent self.old.motif) (molecule_at catalog.now d)))) }
    {
        let mut room = Room {
            bases: [0; layout::BLOCK_BASES],
            mates: [0; layout::BLOCK_BASES],
        };
        let mut searched = 0;
        for d in 0..layout::block_count(catalog) {
            if octets::bits::test(todo, 0, d) {
                if self.embeds_at(catalog, d, &mut room) {
                    octets::bits::set(found, 0, d);
                }
                searched += 1;
            }
        }
        searched
    }
}
