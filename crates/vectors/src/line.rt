// A line of a script: its numbers.
ghost use Rattle.std.specs.Prelude.{◌≡◌, ◌+◌, ◌%◌, ◌^◌, ◌≤◌, min, map, IsTrue, IsFalse, ◌<◌, IfSome, length};
ghost use Rattle.vectors.specs.Numbers.{values_of, number_at};

use arrayvec::ArrayVec;

// The numbers of a line that count.
pub const NUMBERS_MOST: usize = 32;

// A number is cut to twelve digits before the next is added: numbers of a script are small.
const CUT: u64 = 1_000_000_000_000;

// A larger number is no field, place or length either way.
const SIZE_MOST: u64 = 1 << 32;

// A number, and whether a minus stands between it and the number before it: 0 has a minus as well, so it is no signed number.
#[derive(Clone, Copy, Default)]
pub struct Number {
    pub value: u64,
    pub minus: bool,
}

impl Number {
    pub fn byte(self) -> u8
        ensures { result ≡ self.value % 256 }
    {
        (self.value % 256) as u8
    }

    // A field, a place or a length; a larger number is cut.
    pub fn size(self) -> usize
        ensures { result ≡ min self.value (2 ^ 32) }
    {
        self.value.min(SIZE_MOST) as usize
    }

    pub fn short(self) -> u16
        ensures { result ≡ self.value % 2 ^ 16 }
    {
        (self.value % 65536) as u16
    }

    // In 16 bits, signed.
    pub fn signed(self) -> u16
        ensures plus { IsFalse self.minus → result ≡ self.value % 2 ^ 16 }
        ensures minus { IsTrue self.minus → (result + self.value) % 2 ^ 16 ≡ 0 }
    {
        let size = self.short();
        if self.minus {
            size.wrapping_neg()
        } else {
            size
        }
    }
}

// The decimal numbers of a line, and whether a minus stands before each; those past the 32nd are left out. Arrays and a count, since it
// is copied, as an ArrayVec is not.
#[derive(Clone, Copy)]
pub struct Args {
    pub values: [u64; NUMBERS_MOST],
    pub minus: [bool; NUMBERS_MOST],
    pub count: usize,
}

impl Args {
    // One number more, as long as there is room.
    fn add(&mut self, n: Number)
        ensures { self.new.count ≤ self.old.count + 1 }
    {
        let count = self.count;
        if count < NUMBERS_MOST {
            self.values[count] = n.value;
            self.minus[count] = n.minus;
            self.count = count + 1;
        }
    }

    // The numbers of a line in the place of those before, apart from what stands between them: each byte lengthens a number or ends it.
    // A script's lines are read into one value, since a new one is zeroed and copied at every line.
    pub fn read(&mut self, line: &[u8])
        ensures { self.new.count ≤ length line.now }
    {
        self.count = 0;
        let mut number = Number::default();
        let mut inside = false;
        for b in line {
            if let Some(d) = digit(*b) {
                number.value = lengthened(number.value, d);
                inside = true;
            } else {
                if inside {
                    self.add(number);
                    number = Number::default();
                    inside = false;
                }
                number.minus = number.minus || *b == b'-';
            }
        }
        if inside {
            self.add(number);
        }
    }

    // The number at a place, 0 where the line has none there.
    pub fn at(&self, k: usize) -> Number
        ensures { result ≡ number_at self.now k }
    {
        if k < self.count && k < NUMBERS_MOST {
            Number {
                value: self.values[k],
                minus: self.minus[k],
            }
        } else {
            Number::default()
        }
    }

    // The numbers as bytes.
    pub fn bytes(&self) -> ArrayVec<u8, NUMBERS_MOST>
        ensures { result.items ≡ map (λ v. v % 256) (values_of self.now) }
    {
        let mut bytes = ArrayVec::new();
        for k in 0..self.count.min(NUMBERS_MOST) {
            let n = self.at(k);
            let _ = bytes.try_push(n.byte());
        }
        bytes
    }
}

// The number of a digit; None for any other byte.
fn digit(b: u8) -> Option<u8>
    ensures { IfSome result (λ d. d < 10) }
{
    match b {
        b'0'..=b'9' => Some(b - b'0'),
        _ => None,
    }
}

// A number with one digit more.
fn lengthened(value: u64, digit: u8) -> u64 {
    value % CUT * 10 + u64::from(digit)
}

// The numbers of a line.
pub fn numbers(line: &[u8]) -> Args {
    let mut args = Args {
        values: [0; NUMBERS_MOST],
        minus: [false; NUMBERS_MOST],
        count: 0,
    };
    args.read(line);
    args
}
