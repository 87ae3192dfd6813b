// The bounds of the starts: how far a greedy match of letters, bonds left aside, has come at each base of the molecule. No embedding has come further there,
// and the row of a stretch is made for the starts up to the bound where it begins. The bounds lie after the tables of the motif.
ghost use Rattle.std.specs.Prelude.{◌≡◌, ℕ, ◌+◌, ◌*◌, ◌≤◌, ◌<◌, ltb, length};
ghost use Rattle.lists.specs.Vocabulary.{nth, choose};
ghost use Rattle.letters.specs.Letters.{letters_match};
ghost use Rattle.rows.specs.Rows.{Tables, bound_at};
ghost use Rattle.arcs.specs.Arcs.{Bounded, AllStarts};

use rows::tables;

// The bound after a base: one more where the position that the bound is matches the base, by their classes.
fn next(p: &[u8], pm: &[u16], tables: &[u16], bound: usize, base: u8) -> usize
    requires p_len_bound { length p.now ≤ 4096 }
    requires tables { Tables p.now pm.now tables.now }
    ensures { result ≡ choose (ltb bound (length p.now)) (choose (letters_match (nth p.now bound) base) (bound + 1) bound) bound }
{
    if p.len() <= bound {
        return bound;
    }
    if tables[bound] % 256 == u16::from(letters::letter_class(base)) {
        return bound + 1;
    }
    bound
}

// Writes bounds of the bases from lo to hi, where the motif has come to `from` at lo, and gives that of hi. How close they are is no part of the contract.
pub fn fill(
    p: &[u8],
    pm: &[u16],
    q: &[u8],
    from: usize,
    lo: usize,
    hi: usize,
    tables: &mut [u16],
) -> usize
    requires tables { Tables p.now pm.now tables.old }
    requires p_len_bound { (length p.now ≤ 4096) × ((length q.now ≤ 4096) × (from ≤ length p.now)) }
    requires lo_le_hi { (lo ≤ hi) × ((hi ≤ length q.now) × (5 * (length p.now + 1) + length q.now < length tables.old)) }
    ensures value { (result ≡ bound_at (length p.now) tables.new hi)
        × Bounded p.now q.now tables.new from (length p.now) lo hi × (result ≤ length p.now) }
    ensures tables_len_unchanged { (length tables.new ≡ length tables.old)
        × ((k : ℕ) → k < 5 * (length p.now + 1) → nth tables.new k ≡ nth tables.old k) }
{
    let at = tables::ROWS * (p.len() + 1);
    let mut bound = from;
    for i in lo..hi {
        tables[at + i] = bound as u16;
        bound = next(p, pm, tables, bound, q[i]);
    }
    tables[at + hi] = bound as u16;
    bound
}

// Writes the motif's length as the bound of every base: rows are made for every start.
pub fn all_starts(p: &[u8], pm: &[u16], n: usize, tables: &mut [u16])
    requires p_len_bound { (length p.now ≤ 4096) × ((n ≤ 4096) × (5 * (length p.now + 1) + n < length tables.old)) }
    requires tables { Tables p.now pm.now tables.old }
    ensures { AllStarts p.now pm.now n tables.new }
{
    let at = tables::ROWS * (p.len() + 1);
    tables[at..=at + n].fill(p.len() as u16);
}
