// Bytes, words and numbers put into a lent text, one after the other. Each asks for room for what it puts, which no invariant of the
// writer could say; and not by `write!`, whose error could not come and would have to be answered.
ghost use Rattle.std.specs.Prelude.{[], ◌∷◌};
ghost use Rattle.text.specs.Text.{decimal, numbers};
ghost use Rattle.text.specs.Puts.{Fits, Puts};

use itoa::Buffer;

const SPACE: u8 = b' ';

// A lent text, and the place in it where the next byte goes.
#[derive(Drop)]
pub struct Writer<'t> {
    pub out: &'t mut [u8],
    pub at: usize,
}

impl<'t> Writer<'t> {
    // One byte.
    pub fn put_byte(&mut self, b: u8)
        requires { Fits self.old (b ∷ []) }
        ensures { Puts self.old self.new (b ∷ []) }
    {
        self.out[self.at] = b;
        self.at += 1;
    }

    // All of the bytes.
    pub fn put_bytes(&mut self, bytes: &[u8])
        requires { Fits self.old bytes.now }
        ensures { Puts self.old self.new bytes.now }
    {
        let end = self.at + bytes.len();
        self.out[self.at..end].copy_from_slice(bytes);
        self.at = end;
    }

    // A number in decimal.
    pub fn put_decimal(&mut self, n: usize)
        requires { Fits self.old (decimal n) }
        ensures { Puts self.old self.new (decimal n) }
    {
        let mut buffer = Buffer::new();
        self.put_bytes(buffer.format(n).as_bytes());
    }

    // Numbers, a space before each.
    pub fn put_numbers(&mut self, values: &[usize])
        requires { Fits self.old (numbers values.now) }
        ensures { Puts self.old self.new (numbers values.now) }
    {
        for v in values {
            self.put_byte(SPACE);
            self.put_decimal(*v);
        }
    }
}
