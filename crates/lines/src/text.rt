// A text that grows in a lent buffer: the bytes behind it are as they were.
ghost use Rattle.std.specs.Prelude.{◌≡◌, ◌∷◌, [], ◌+◌, ◌*◌, ◌≤◌, length};
ghost use Rattle.lines.specs.Text.{decimal, number_text, numbers_text, rest_text, line_text, bare_text};
ghost use Rattle.lines.specs.Adding.{Adds, Fits};

// The lent buffer, and the place behind the text that stands in it. That there is room is asked by each writer, which uses some of it up, and is no
// invariant.
#[derive(Drop)]
pub struct Text<'a> {
    pub bytes: &'a mut [u8],
    pub end: usize,
}

impl<'a> Text<'a> {
    // No text yet.
    pub fn new(bytes: &'a mut [u8]) -> Text<'a>
        ensures same_reference { result.bytes.ghost_name ≡ bytes.entry.ghost_name }
        ensures held { result.bytes.now ≡ bytes.old }
        ensures none { result.end ≡ 0 }
    {
        Text { bytes, end: 0 }
    }

    // Writes a byte.
    fn put_byte(&mut self, v: u8)
        requires { Fits 1 self.old }
        ensures { Adds (v ∷ []) self.old self.new }
    {
        self.bytes[self.end] = v;
        self.end += 1;
    }

    // Writes a number in decimal.
    fn put_decimal(&mut self, v: u64)
        requires { Fits 20 self.old }
        ensures { Adds (decimal 20 v) self.old self.new }
    {
        self.put_word(itoa::Buffer::new().format(v).as_bytes());
    }

    // Writes a space and a number.
    fn put_number(&mut self, v: u64)
        requires { Fits 21 self.old }
        ensures { Adds (number_text v) self.old self.new }
    {
        self.put_byte(b' ');
        self.put_decimal(v);
    }

    // Writes the bytes of a word.
    fn put_word(&mut self, word: &[u8])
        requires { Fits (length word.now) self.old }
        ensures { Adds word.now self.old self.new }
    {
        let behind = self.end + word.len();
        self.bytes[self.end..behind].copy_from_slice(word);
        self.end = behind;
    }

    // Writes the rest of a line: numbers, each behind a space, and a newline.
    fn put_rest(&mut self, numbers: &[u64])
        requires { Fits (21 * length numbers.now + 1) self.old }
        ensures { Adds (rest_text numbers.now) self.old self.new }
    {
        for number in numbers {
            self.put_number(*number);
        }
        self.put_byte(b'\n');
    }

    // Writes a line: a word, its numbers, a newline.
    pub fn put_line(&mut self, word: &[u8], numbers: &[u64])
        requires { Fits (length word.now + 21 * length numbers.now + 1) self.old }
        ensures { Adds (line_text word.now numbers.now) self.old self.new }
    {
        self.put_word(word);
        self.put_rest(numbers);
    }

    // Writes a line of bare numbers: the first, and the others behind a space each.
    pub fn put_bare_line(&mut self, first: u64, others: &[u64])
        requires { Fits (20 + 21 * length others.now + 1) self.old }
        ensures { Adds (bare_text first others.now) self.old self.new }
    {
        self.put_decimal(first);
        self.put_rest(others);
    }
}
