// What a line says: its letter, and its numbers a, b and c from columns 2, 8 and 14.
use testing::input::number;
use testing::slices::byte;

// What a block may be sound as: a molecule block, a cache entry, a block handed in as a motif; or what it holds: a motif.
#[derive(Clone, Copy, Debug, PartialEq, Eq)]
pub enum Kind {
    Molecule,
    Entry,
    Motif,
    HoldsMotif,
}

impl Kind {
    // 1 to 3 in this order; every other number asks for a motif.
    pub fn of(number: usize) -> Kind {
        match number {
            1 => Kind::Molecule,
            2 => Kind::Entry,
            3 => Kind::Motif,
            _ => Kind::HoldsMotif,
        }
    }
}

// What a command writes that asks nothing.
#[derive(Clone, Copy, Debug)]
pub enum Preparation {
    // `N a b c`: a random bases and b mates without bonds, from the seed c.
    Strand(usize, usize, usize),
    // `A a b`: an arc. Its ends may lie behind the mates, too, where the input's language has the lengths and the counts (see `State::set_word`).
    Arc(usize, usize),
    // `C a b`: empty maps of a and b bytes.
    Maps(usize, usize),
    // `P a b`: number a is searched (b even) or a hit (b odd).
    Searched(usize),
    Hit(usize),
    // `S a b`: byte a of the image becomes b.
    Byte(usize, u8),
}

// What becomes of the strand in the first bytes of the image.
#[derive(Clone, Copy, Debug)]
pub enum Encoding {
    // `M`: it is encoded as a molecule.
    Molecule,
    // `K`: it is encoded with the maps as an entry.
    Entry,
    // `O a`: it is written as block a.
    Block(usize),
    // `U`: it may be the motif that the entry there keeps.
    Keeps,
}

// What the first block is decoded as.
#[derive(Clone, Copy, Debug)]
pub enum Decoding {
    // `D`
    Molecule,
    // `E`: a block handed in as a motif.
    Motif,
    // `d`: a byte less than a block.
    Short,
}

#[derive(Clone, Copy, Debug)]
pub enum Question {
    // `M`, `K`, `O` and `U` take the first b bytes.
    Encode(Encoding, usize),
    // `D`, `E` and `d` write a bases and b mates of the strand.
    Decode(Decoding, usize, usize),
    // `W a`: the sum over the image (0), the bases (1), the mates (2).
    SumImage,
    SumBases,
    SumMates,
    // `J a b`: whether the first b bytes are sound as kind a.
    Sound(Kind, usize),
    // `R a`: writes the checksum into the first a bytes and asks whether it is right.
    Checksum(usize),
    // `Q a`: 1 where number a of the entry is searched, and 2 more where it is a hit.
    Bits(usize),
    // `X a b c`: byte a becomes b. The digits of c are the kind, and whether the block is sound with the old checksum, with the checksum made right, and
    // with the byte put back and the checksum made right.
    Damage(usize, u8, usize),
    // `F a` and every other letter: takes number a out of the entry and asks whether it is sound.
    Forget(usize),
    // `Z a`: zeroes block a. `Y a` asks whether it is sound as a molecule block.
    Zero(usize),
    SoundAt(usize),
    // `H` cleans all entries, `f a` takes number a out of all; their answer is the sum over the image.
    CleanAll,
    ForgetAll(usize),
}

#[derive(Clone, Copy, Debug)]
pub enum Command {
    Prepare(Preparation),
    Ask(Question),
    // `G`: a group of cases ends here. Its name stands in the line.
    EndGroup,
}

impl Preparation {
    fn of(letter: u8, a: usize, b: usize, c: usize) -> Option<Preparation> {
        match letter {
            b'N' => Some(Preparation::Strand(a % 65536, b % 65536, c)),
            b'A' => Some(Preparation::Arc(a, b)),
            b'C' => Some(Preparation::Maps(a % 65536, b % 65536)),
            b'P' if b % 2 == 0 => Some(Preparation::Searched(a)),
            b'P' => Some(Preparation::Hit(a)),
            b'S' => Some(Preparation::Byte(a, byte(b))),
            _ => None,
        }
    }
}

impl Question {
    fn of(letter: u8, a: usize, b: usize, c: usize) -> Question {
        match letter {
            b'M' => Question::Encode(Encoding::Molecule, b),
            b'K' => Question::Encode(Encoding::Entry, b),
            b'O' => Question::Encode(Encoding::Block(a), b),
            b'U' => Question::Encode(Encoding::Keeps, b),
            b'D' => Question::Decode(Decoding::Molecule, a, b),
            b'E' => Question::Decode(Decoding::Motif, a, b),
            b'd' => Question::Decode(Decoding::Short, a, b),
            b'W' if a == 0 => Question::SumImage,
            b'W' if a == 1 => Question::SumBases,
            b'W' => Question::SumMates,
            b'J' => Question::Sound(Kind::of(a), b),
            b'R' => Question::Checksum(a),
            b'Q' => Question::Bits(a),
            b'X' => Question::Damage(a, byte(b), c / 1000),
            b'Z' => Question::Zero(a),
            b'Y' => Question::SoundAt(a),
            b'H' => Question::CleanAll,
            b'f' => Question::ForgetAll(a),
            _ => Question::Forget(a),
        }
    }
}

impl Command {
    // None for the byte 0, at which the input ends.
    pub fn of(line: &[u8]) -> Option<Command> {
        let letter = *line.first()?;
        if letter == 0 {
            return None;
        }
        let a = number(line, 2..7);
        let b = number(line, 8..13);
        let c = number(line, 14..19);
        if letter == b'G' {
            return Some(Command::EndGroup);
        }
        match Preparation::of(letter, a, b, c) {
            Some(preparation) => Some(Command::Prepare(preparation)),
            None => Some(Command::Ask(Question::of(letter, a, b, c))),
        }
    }
}
