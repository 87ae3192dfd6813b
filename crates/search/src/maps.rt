// The maps of a query: the held numbers, those of them that are to be searched, and those that the slot's entry knows as hits.
ghost use Rattle.std.specs.Prelude.{◌≡◌, true, not, ◌&&◌, ◌≤◌, length};
ghost use Rattle.strand.specs.Lent.{lent};
ghost use Rattle.octets.specs.Octets.{map_size, map_bit, map_bytes};
ghost use Rattle.block.specs.Block.{sound_entry, block_count};
ghost use Rattle.block.specs.Content.{block_size, searched_in, hit_in};
ghost use Rattle.calls.specs.Buffers.{most_catalog_blocks, held as held_in};
ghost use Rattle.calls.specs.Calls.{to_search};
ghost use Rattle.judge.specs.Judge.{SoundCatalog};
ghost use Rattle.search.specs.Search.{known_hit};

use block::layout;
use strand::Strand;

// The held numbers.
pub fn fill_held(catalog: &[u8], held: &mut [u8])
    requires { (length held.old ≡ map_size) × (block_count catalog.now ≤ most_catalog_blocks) × SoundCatalog catalog.now }
    ensures { held.new ≡ map_bytes (held_in catalog.now) }
{
    held.fill(0);
    for d in 0..layout::block_count(catalog) {
        if judge::is_held(catalog, d) {
            octets::bits::set(held, 0, d);
        }
    }
}

// The held numbers that the entry, which keeps this motif if `same`, has not searched.
pub fn fill_todo(entry: &[u8], same: bool, held: &[u8], todo: &mut [u8])
    requires { (length entry.now ≡ block_size) × (length held.now ≡ map_size) × (length todo.old ≡ map_size) }
    ensures { todo.new ≡ map_bytes (λ d. map_bit held.now 0 d && not (same && searched_in entry.now d)) }
{
    todo.copy_from_slice(held);
    if same {
        octets::maps::take_out(todo, entry, layout::SEARCHED_AT);
    }
}

// The held numbers that the entry, which keeps this motif if `same`, has searched and found to be hits.
pub fn fill_known(entry: &[u8], same: bool, held: &[u8], found: &mut [u8])
    requires { (length entry.now ≡ block_size) × (length held.now ≡ map_size) × (length found.old ≡ map_size) }
    ensures { found.new
        ≡ map_bytes (λ d. map_bit held.now 0 d && (same && (searched_in entry.now d && hit_in entry.now d))) }
{
    if !same {
        found.fill(0);
        return;
    }
    found.copy_from_slice(held);
    octets::maps::keep(found, entry, layout::SEARCHED_AT);
    octets::maps::keep(found, entry, layout::HIT_AT);
}

// The maps of a query: the held numbers, those of them that are to be searched, and the hits. Nobody copies them, so it is no Clone.
#[derive(Drop)]
pub(crate) struct Maps {
    pub held: [u8; layout::MAP_SIZE],
    pub todo: [u8; layout::MAP_SIZE],
    pub found: [u8; layout::MAP_SIZE],
}

impl Maps {
    // From the entry of the motif's slot: the hits are those that it knows.
    pub(crate) fn new(catalog: &[u8], entry: &[u8], motif: &Strand) -> Maps
        requires { SoundCatalog catalog.now × (block_count catalog.now ≤ most_catalog_blocks) × (sound_entry entry.now ≡ true) }
        ensures { (result.held ≡ map_bytes (held_in catalog.now))
            × (result.todo ≡ map_bytes (to_search catalog.now entry.now (lent motif.now)))
            × (result.found ≡ map_bytes (known_hit catalog.now entry.now (lent motif.now))) }
    {
        let mut held = [0; layout::MAP_SIZE];
        let mut todo = [0; layout::MAP_SIZE];
        let mut found = [0; layout::MAP_SIZE];
        fill_held(catalog, &mut held);
        let same = codec::entry::keeps(entry, motif);
        fill_todo(entry, same, &held, &mut todo);
        fill_known(entry, same, &held, &mut found);
        Maps { held, todo, found }
    }
}
