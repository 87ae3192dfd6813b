// Text written into a borrowed slice, one piece after the other. Each writer asks for room for its piece: the callers in this crate have most_output bytes.
ghost use Rattle.std.specs.Prelude.{[], ◌∷◌, ◌++◌, ◌+◌, ◌≡◌, ◌≤◌, ◌<◌, length, take};
ghost use Rattle.screening.specs.Text.{digits, line, lines, hits_text, refused_text, TextPut};
ghost use Rattle.screening.specs.Writing.{Puts};

// The slice, whose first `len` bytes are the text so far. No Clone, since it lends a slice to write.
#[derive(Drop)]
struct Text<'a> {
    out: &'a mut [u8],
    len: usize,
}

impl<'a> Text<'a> {
    // No text yet.
    fn new(out: &'a mut [u8]) -> Text<'a>
        ensures { (result.out.ghost_name ≡ out.entry.ghost_name) × (result.out.now ≡ out.old) × (result.len ≡ 0) }
    {
        Text { out, len: 0 }
    }

    // One byte.
    fn put_byte(&mut self, b: u8)
        requires { self.old.len < length self.old.out.now }
        ensures { Puts (b ∷ []) self.old self.new }
    {
        self.out[self.len] = b;
        self.len += 1;
    }

    // The bytes of a word.
    fn put_word(&mut self, word: &[u8])
        requires { self.old.len + length word.now ≤ length self.old.out.now }
        ensures { Puts word.now self.old self.new }
    {
        let start = self.len;
        let end = start + word.len();
        self.out[start..end].copy_from_slice(word);
        self.len = end;
    }

    // A number in decimal: its front digits first, which are those of a tenth of it.
    fn put_number(&mut self, n: usize)
        requires { self.old.len + length (digits n) ≤ length self.old.out.now }
        ensures { Puts (digits n) self.old self.new }
    {
        if n < 10 {
            self.put_byte(b'0' + n as u8);
            return;
        }
        self.put_number(n / 10);
        self.put_byte(b'0' + (n % 10) as u8);
    }

    // A word and a number right after it.
    fn put_field(&mut self, word: &[u8], n: usize)
        requires { self.old.len + (length word.now + length (digits n)) ≤ length self.old.out.now }
        ensures { Puts (word.now ++ digits n) self.old self.new }
    {
        self.put_word(word);
        self.put_number(n);
    }

    // A number on its own line.
    fn put_line(&mut self, n: usize)
        requires { self.old.len + length (line (digits n)) ≤ length self.old.out.now }
        ensures { Puts (line (digits n)) self.old self.new }
    {
        self.put_number(n);
        self.put_byte(b'\n');
    }

    // The numbers, each on its own line.
    fn put_lines(&mut self, numbers: &[u16])
        requires { self.old.len + length (lines numbers.now) ≤ length self.old.out.now }
        ensures { Puts (lines numbers.now) self.old self.new }
    {
        for n in numbers {
            self.put_line(usize::from(*n));
        }
    }
}

// A text of one word; its length, as that of the next two.
pub(crate) fn put_text(out: &mut [u8], word: &[u8]) -> usize
    requires { length word.now ≤ length out.old }
    ensures { TextPut word.now out.old out.new 0 result }
{
    let mut text = Text::new(out);
    text.put_word(word);
    text.len
}

// The text of an answered query.
pub(crate) fn put_hits(out: &mut [u8], count: usize, searched: usize, numbers: &[u16]) -> usize
    requires count_in_bounds { count ≤ length numbers.now }
    requires text_fits { length (hits_text count searched (take count numbers.now)) ≤ length out.old }
    ensures { TextPut (hits_text count searched (take count numbers.now)) out.old out.new 0 result }
{
    let mut text = Text::new(out);
    text.put_field(b"hits ", count);
    text.put_field(b" searched ", searched);
    text.put_byte(b'\n');
    text.put_lines(&numbers[..count]);
    text.len
}

// The text of a refusal, by the numbers that it prints.
pub(crate) fn put_refused(out: &mut [u8], number: u8, side: u8, place: usize) -> usize
    requires { length (refused_text number side place) ≤ length out.old }
    ensures { TextPut (refused_text number side place) out.old out.new 0 result }
{
    let mut text = Text::new(out);
    text.put_field(b"refused ", usize::from(number));
    text.put_field(b" ", usize::from(side));
    text.put_field(b" ", place);
    text.put_byte(b'\n');
    text.len
}
