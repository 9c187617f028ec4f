// The tables that a script makes anew, in place: a script has thousands of lines that make one, and the room is 37,000 bytes.
ghost use Rattle.driver.specs.declared.making.TheConstants.{WORDS_ROOM};
ghost use Rattle.std.specs.Prelude.{◌≡◌, ◌+◌, ◌<◌, ◌≤◌, [], length, min, replicate};

use table::{FIELDS_MOST, READINGS_MOST};

// One field more than a table has, so that a script can make too long a table.
const FIELDS_ROOM: usize = FIELDS_MOST + 1;

pub const WORDS_ROOM: usize = FIELDS_ROOM * FIELDS_ROOM * READINGS_MOST;

// The words of a table, at the front of the room for one. A count beside an array: an ArrayVec grows word by word. What is written
// goes word by word too, since std's fill and copy of a part of a field's array get no generated proof.
#[derive(Drop)]
pub struct Words {
    pub room: [u32; WORDS_ROOM],
    pub count: usize,
    ghost within: { count ≤ WORDS_ROOM },
}

impl Words {
    ghost use Rattle.table.specs.Layout.{table_length};
    ghost use Rattle.driver.specs.Making.{words_of};

    pub fn none() -> Words
        ensures { words_of result ≡ [] }
    {
        Words {
            room: [0; WORDS_ROOM],
            count: 0,
        }
    }

    pub fn as_slice(&self) -> &[u32]
        ensures { result.now ≡ words_of self.now }
    {
        &self.room[..self.count]
    }

    // One word more, as long as there is room.
    fn push(&mut self, word: u32)
        ensures { self.old.count < WORDS_ROOM → self.new.count ≡ self.old.count + 1 }
    {
        let count = self.count;
        if count < WORDS_ROOM {
            self.room[count] = word;
            self.count = count + 1;
        }
    }

    // So many words, as far as there is room; no pair is allowed.
    pub fn clear(&mut self, words: usize)
        ensures { words_of self.new ≡ replicate (min words WORDS_ROOM) 0 }
    {
        let count = words.min(WORDS_ROOM);
        for p in 0..count {
            self.room[p] = 0;
        }
        self.count = count;
    }

    // The words of another table.
    pub fn copy(&mut self, from: &Words)
        ensures { words_of self.new ≡ words_of from.now }
    {
        let count = from.count;
        for p in 0..count {
            self.room[p] = from.room[p];
        }
        self.count = count;
    }

    // Everything is allowed, diagonals full. There is no table of too many fields.
    pub fn fill(&mut self, sizes: &[u8])
        ensures none { FIELDS_MOST < length sizes.now → words_of self.new ≡ [] }
        ensures words { length sizes.now ≤ FIELDS_MOST → self.new.count ≡ table_length (length sizes.now) }
    {
        self.count = 0;
        if sizes.len() > FIELDS_MOST {
            return;
        }
        for (i, size) in sizes.iter().enumerate() {
            for (j, other) in sizes.iter().enumerate() {
                for a in 0..READINGS_MOST as u32 {
                    let row = if a >= u32::from(*size) {
                        0
                    } else if i == j {
                        words::with_bit(0, a)
                    } else {
                        words::below(u32::from(*other))
                    };
                    self.push(row);
                }
            }
        }
    }
}
