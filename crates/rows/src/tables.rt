// The tables of a motif, which are made once for all rows: the classes of its letters and of those of its mates, and the row of an unbonded base for each
// class of letters. After them lie the bounds of a molecule, one for each of its bases and one behind them.
ghost use Rattle.std.specs.Prelude.{◌≡◌, ℕ, ◌+◌, ◌-◌, ◌*◌, ◌≤◌, ◌<◌, length, leb};
ghost use Rattle.lists.specs.Vocabulary.{nth, choose};
ghost use Rattle.letters.specs.Letters.{letters_match};
ghost use Rattle.letters.specs.Classes.{letter_class};
ghost use Rattle.strand.specs.Strands.{Nested};
ghost use Rattle.embedding.specs.Row.{unit_at};
ghost use Rattle.rows.specs.Rows.{Written, Tables, classes_at, steps_at, matches, last_at};

// The rows of the tables: the classes of the letters, and one for each class.
pub const ROWS: usize = 5;

// Short strands: a motif and a molecule that are no longer than those of a query.
pub const SHORT_MOTIF: usize = 120;

pub const SHORT_MOLECULE: usize = 160;

// How many numbers the tables of a motif and the bounds of a molecule are, for short strands and for the longest ones: five rows and the bounds,
// 5 * 121 + 161 and 5 * 4097 + 4097.
pub const SHORT_SIZE: usize = 766;

pub const LONG_SIZE: usize = 24582;

// Where the row of an unbonded base b starts in the tables of a motif of m bases.
pub(crate) fn steps_at(m: usize, b: u8) -> usize
    requires { m ≤ 4096 }
    ensures { (result ≡ steps_at m b) × (result ≤ 4 * (m + 1)) }
{
    (m + 1) * (1 + (b / 2 % 4) as usize)
}

// Where the base b takes the motif from j on, c and k being the base and the mate of j: j + 1 or j. A product of two tests, so that the compiler loads base
// and mate in each turn of a loop and makes vector code of it.
fn unit_entry(c: u8, b: u8, k: u16, j: u16) -> u16
    requires { j < 4096 }
    ensures { result ≡ choose (leb k j) (choose (letters_match c b) (j + 1) j) j }
{
    j + u16::from(k <= j) * u16::from(letters::letters_match(c, b))
}

// Writes the row of the unbonded base b from `at` on.
fn put_steps(p: &[u8], pm: &[u16], b: u8, at: usize, tables: &mut [u16])
    requires pm_len { (length pm.now ≡ length p.now) × (length p.now ≤ 4096) }
    requires at_bound { (at ≤ 16388) × (at + length p.now < length tables.old) }
    ensures { Written (λ k. unit_at (matches p.now b) (nth pm.now) (length p.now) (k - at))
        tables.old tables.new at (at + length p.now + 1) }
{
    for j in 0..p.len() {
        tables[at + j] = unit_entry(p[j], b, pm[j], j as u16);
    }
    tables[at + p.len()] = p.len() as u16;
}

// Writes the classes of the letters.
fn put_classes(p: &[u8], tables: &mut [u16])
    requires { length p.now ≤ length tables.old }
    ensures { Written (λ j. letter_class (nth p.now j)) tables.old tables.new 0 (length p.now) }
{
    for j in 0..p.len() {
        tables[j] = u16::from(letters::letter_class(p[j]));
    }
}

// Adds to each position 256 times the class of its mate's letter, which stands at the mate.
fn add_mates(p: &[u8], pm: &[u16], tables: &mut [u16])
    requires pm_len { (length pm.now ≡ length p.now) × (length p.now ≤ length tables.old) }
    requires nested { Nested (nth pm.now) (length p.now) }
    requires by_index { (j : ℕ) → nth p.now j < 256 }
    requires by_index_2 { (j : ℕ) → j < length p.now → nth tables.old j ≡ letter_class (nth p.now j) }
    ensures { Written (classes_at p.now pm.now) tables.old tables.new 0 (length p.now) }
{
    for j in 0..pm.len() {
        tables[j] = tables[j] + tables[pm[j] as usize] % 256 * 256;
    }
}

// Writes the row of the unbonded base b to its place.
fn put_base(p: &[u8], pm: &[u16], b: u8, tables: &mut [u16])
    requires pm_len { (length pm.now ≡ length p.now) × (length p.now ≤ 4096) }
    requires room { 5 * (length p.now + 1) ≤ length tables.old }
    ensures { Written (λ k. unit_at (matches p.now b) (nth pm.now) (length p.now)
        (k - steps_at (length p.now) b)) tables.old tables.new
        (steps_at (length p.now) b) (steps_at (length p.now) b + length p.now + 1) }
{
    let at = steps_at(p.len(), b);
    put_steps(p, pm, b, at, tables);
}

// Makes the tables of a motif.
pub fn fill(p: &[u8], pm: &[u16], tables: &mut [u16])
    requires pm_len { (length pm.now ≡ length p.now) × (length p.now ≤ 4096) }
    requires nested { Nested (nth pm.now) (length p.now) }
    requires room { 5 * (length p.now + 1) ≤ length tables.old }
    ensures { Tables p.now pm.now tables.new }
{
    put_classes(p, tables);
    add_mates(p, pm, tables);
    put_base(p, pm, b'A', tables);
    put_base(p, pm, b'C', tables);
    put_base(p, pm, b'G', tables);
    put_base(p, pm, b'U', tables);
}

// The last start of the rows of stretches that begin at base i: the bound there, or `to`.
pub fn last_start(m: usize, tables: &[u16], to: usize, i: usize) -> usize
    requires { (m ≤ 4096) × ((i ≤ 4096) × (5 * (m + 1) + i < length tables.now)) }
    ensures { result ≡ last_at m tables.now to i }
{
    let bound = tables[ROWS * (m + 1) + i] as usize;
    bound.min(to)
}
