// Letters: which bytes are letters, the lowest base that is none, and the letter rule.
#![tactic(auto)]

ghost use Rattle.std.specs.Prelude.{◌≡◌, length};
ghost use Rattle.lists.specs.Vocabulary.{all, lowest};
ghost use Rattle.letters.specs.Letters.{is_letter, not_letter, letters_match};
ghost use Rattle.letters.specs.Classes.{letter_class, other_letter};

use refusals::Side;

// Whether a byte is A, C, G, T or U, on either side. By `|`, since no branch may depend on the byte: with `||` or `matches!` all_letters takes fifteen times
// as long. A and C differ in one bit, and so do T and U: the compiler makes one comparison of each pair.
#[tactic(auto, unfolding(crate::specs::Letters::is_letter))]
pub fn is_letter(side: Side, b: u8) -> bool
    ensures { result ≡ is_letter side b }
{
    (b == b'A') | (b == b'C') | (b == b'G') | ((b == b'T') | (b == b'U'))
}

// Whether all bases are letters. No branch depends on a base: the processor tests several at a time.
fn all_letters(side: Side, bases: &[u8]) -> bool
    ensures { result ≡ all (is_letter side) bases.now }
{
    let mut least: u8 = 1;
    for b in bases {
        least = least.min(is_letter(side, *b) as u8);
    }
    least == 1
}

// The lowest position whose base is no letter, or the length. It is looked for only where there is one.
pub fn lowest_non_letter(side: Side, bases: &[u8]) -> usize
    ensures { result ≡ lowest (length bases.now) (not_letter side bases.now) }
{
    if all_letters(side, bases) {
        return bases.len();
    }
    bases
        .iter()
        .position(|b| !is_letter(side, *b))
        .unwrap_or(bases.len())
}

// The class of a byte: T has that of U, every other byte its own.
#[tactic(auto, unfolding(crate::specs::Classes::letter_class, lists::specs::Vocabulary::choose))]
pub fn letter_class(b: u8) -> u8
    ensures { result ≡ letter_class b }
{
    if b == b'T' { b'U' } else { b }
}

// The other spelling of a byte: U of T, T of U, and every other byte itself. By a sum, U being the byte behind T: a `match` becomes branches on the byte, which
// no processor foresees in a molecule.
#[tactic(auto, unfolding(crate::specs::Classes::other_letter, lists::specs::Vocabulary::choose))]
fn other_letter(b: u8) -> u8
    ensures { result ≡ other_letter b }
{
    b + u8::from(b == b'T') - u8::from(b == b'U')
}

// Whether a base of the motif matches a base of the molecule: the letter rule. The other spelling is made of q, which a walk knows before it knows p.
pub fn letters_match(p: u8, q: u8) -> bool
    ensures { result ≡ letters_match p q }
{
    p == q || p == other_letter(q)
}
