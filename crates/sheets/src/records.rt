// The sheet that a script writes, record by record.
ghost use Rattle.std.specs.Prelude.{◌≡◌, ◌-◌, ◌++◌, [], length, take};

use crate::verbs::Verb;
use arrayvec::ArrayVec;
use vectors::line::{Args, NUMBERS_MOST};

// More bytes than a sheet may have, so that a script can write one too long.
const BYTES_ROOM: usize = 4200;

// The bytes, as many as there is room for, and where what was added last starts.
#[derive(Drop)]
pub struct Sheet {
    bytes: ArrayVec<u8, BYTES_ROOM>,
    last: usize,
}

impl Sheet {
    // A sheet with no byte.
    pub fn new() -> Sheet
        ensures bytes { result.bytes.items ≡ [] }
        ensures last { result.last ≡ 0 }
    {
        Sheet {
            bytes: ArrayVec::new(),
            last: 0,
        }
    }

    // The sheet begins anew, in place: a script has thousands of lines that begin one.
    pub fn clear(&mut self)
        ensures bytes { self.new.bytes.items ≡ [] }
        ensures last { self.new.last ≡ 0 }
    {
        self.bytes.clear();
        self.last = 0;
    }

    pub fn as_slice(&self) -> &[u8]
        ensures { result.now ≡ self.now.bytes.items }
    {
        self.bytes.as_slice()
    }

    // Adds bytes, as many as there is room for.
    pub fn put(&mut self, bytes: &[u8])
        ensures bytes { self.new.bytes.items ≡ self.old.bytes.items ++ take (BYTES_ROOM - length self.old.bytes.items) bytes.now }
        ensures last { self.new.last ≡ self.old.last }
    {
        let room = self.bytes.remaining_capacity();
        let _ = self
            .bytes
            .try_extend_from_slice(bytes.get(..room).unwrap_or(bytes));
    }

    // FD: the numbers of the line are the days.
    fn put_days(&mut self, args: &Args) {
        self.put(b"FD");
        let count = args.count.min(NUMBERS_MOST);
        self.put(&[count as u8]);
        for k in 0..count {
            self.put(&args.at(k).short().to_be_bytes());
        }
    }

    // GP: two fields, and the interval's two ends.
    fn put_gap(&mut self, args: &Args) {
        self.put(b"GP");
        self.put(&[args.at(0).byte(), args.at(1).byte()]);
        self.put(&args.at(2).signed().to_be_bytes());
        self.put(&args.at(3).signed().to_be_bytes());
    }

    // What was added last stands so many times in all, as far as there is room: each byte more is the one that stands as many places
    // before as were added.
    fn put_times(&mut self, times: u64) {
        let end = self.bytes.len();
        let start = self.last.min(end);
        let room = self.bytes.remaining_capacity();
        let more = times.saturating_sub(1).saturating_mul((end - start) as u64);
        for k in start..start + more.min(room as u64) as usize {
            if let Some(byte) = self.bytes.get(k).copied() {
                let _ = self.bytes.try_push(byte);
            }
        }
    }

    // A line that adds to the sheet. The arms call functions that take different things, so there is no table of closures.
    pub fn add(&mut self, verb: Verb, text: &[u8], args: &Args)
        ensures { self.new.last ≡ length self.old.bytes.items }
    {
        let start = self.bytes.len();
        match verb {
            Verb::Date => {
                self.put(b"DT");
                self.put(behind(text, 3));
            }
            Verb::Days => self.put_days(args),
            Verb::Gap => self.put_gap(args),
            Verb::Strike => {
                self.put(b"PR");
                self.put(&args.bytes());
            }
            Verb::End => self.put(b"EN"),
            Verb::Bytes => self.put(&args.bytes()),
            Verb::Text => self.put(behind(text, 5)),
            Verb::Times => self.put_times(args.at(0).value),
            _ => {}
        }
        self.last = start;
    }
}

// What stands behind a verb and a space.
fn behind(text: &[u8], start: usize) -> &[u8] {
    text.get(start..).unwrap_or_default()
}
