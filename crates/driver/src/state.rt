// What a script has made so far, and one line of it.
ghost use Rattle.std.specs.Prelude.{◌≡◌, [], OnErr};
ghost use Rattle.driver.specs.Making.{words_of};

use crate::making::{WORDS_ROOM, Words};
use crate::verbs::Verb;
use arrayvec::ArrayVec;
use std::io;
use table::{FIELDS_MOST, READINGS_MOST};
use vectors::line::{Args, NUMBERS_MOST};
use vectors::{asking, line, print};

#[derive(Drop)]
pub struct State {
    sizes: ArrayVec<u8, NUMBERS_MOST>,
    table: Words,
    opening: Words,
    scratch: [u32; WORDS_ROOM],
    args: Args,
}

impl State {
    pub fn new() -> State
        ensures sizes { result.sizes.items ≡ [] }
        ensures table { words_of result.table ≡ [] }
        ensures opening { words_of result.opening ≡ [] }
    {
        State {
            sizes: ArrayVec::new(),
            table: Words::none(),
            opening: Words::none(),
            scratch: [0; WORDS_ROOM],
            args: line::numbers(b""),
        }
    }

    fn put_word(&mut self, at: usize, word: u64) {
        if at < self.table.count {
            self.table.room[at] = (word % (1 << 32)) as u32;
        }
    }

    // Strikes a pair and its mirror, where there are such.
    fn strike(&mut self, i: usize, j: usize, a: usize, b: usize) {
        let n = self.sizes.len();
        if n <= FIELDS_MOST
            && self.table.count == table::table_length(n)
            && i < n
            && j < n
            && a < READINGS_MOST
            && b < READINGS_MOST
        {
            let words = &mut self.table.room[..];
            table::strike(&mut words[..self.table.count], n, i, j, a, b);
        }
    }

    // The opening table is what the table is now.
    fn open(&mut self)
        ensures sizes { self.new.sizes ≡ self.old.sizes }
        ensures table { self.new.table ≡ self.old.table }
        ensures opening { words_of self.new.opening ≡ words_of self.old.table }
    {
        self.opening.copy(&self.table);
    }

    // A line that makes or changes something. The arms call functions that take different things, so there is no table of closures.
    fn make(&mut self, verb: Verb) {
        match verb {
            Verb::Sizes => self.sizes = self.args.bytes(),
            Verb::Table => self.table.clear(self.args.at(0).size()),
            Verb::Full => self.table.fill(&self.sizes),
            Verb::Word => {
                let at = self.args.at(0).size();
                let word = self.args.at(1).value;
                self.put_word(at, word);
            }
            Verb::Strike => {
                let i = self.args.at(0).size();
                let j = self.args.at(1).size();
                let a = self.args.at(2).size();
                let b = self.args.at(3).size();
                self.strike(i, j, a, b);
            }
            Verb::Opening => self.open(),
            _ => {}
        }
    }

    // A line that asks something of a table as it is, by functions that take different things.
    fn ask<P: Print>(&self, rt: &P, verb: Verb) -> io::Result<()> {
        let field = self.args.at(0).size();
        let other = self.args.at(1).size();
        let table = self.table.as_slice();
        match verb {
            Verb::Shape => asking::print_shape(rt, &self.sizes, table),
            Verb::Kept => asking::print_kept(rt, &self.sizes, table, field),
            Verb::Judge => asking::print_rows(rt, &self.sizes, table),
            Verb::Choose => asking::print_choice(rt, &self.sizes, table, &self.args),
            Verb::Show => {
                let opening = self.opening.as_slice();
                asking::print_cell(rt, &self.sizes, opening, table, field, other)
            }
            _ => Ok(()),
        }
    }

    // A line that settles: the budget, and the length of scratch where it is not the table's.
    fn settle<P: Print>(&mut self, rt: &P) -> io::Result<()>
        ensures sizes { self.new.sizes ≡ self.old.sizes }
        ensures table { self.new.table.count ≡ self.old.table.count }
        ensures opening { self.new.opening ≡ self.old.opening }
    {
        let words = self.table.count;
        let lent = if self.args.count > 1 {
            self.args.at(1).size()
        } else {
            words
        };
        let budget = self.args.at(0).value;
        // A part of a field's array is cut from a slice of the whole: in one step it gets no generated proof.
        let table = &mut self.table.room[..];
        let scratch = &mut self.scratch[..];
        let scratch = &mut scratch[..lent.min(WORDS_ROOM)];
        asking::print_settling(rt, &self.sizes, &mut table[..words], scratch, budget)
    }

    // One line: it makes, changes or asks, and what asks is printed with its answer. An error is of printing alone.
    pub fn run_line<P: Print>(&mut self, rt: &P, text: &[u8]) -> io::Result<()>
        ensures err_sizes { OnErr result (self.new.sizes ≡ self.old.sizes) }
        ensures err_table { OnErr result (self.new.table.count ≡ self.old.table.count) }
        ensures err_opening { OnErr result (self.new.opening ≡ self.old.opening) }
    {
        let Some(verb) = Verb::of(text) else {
            return Ok(());
        };
        self.args.read(text);
        if !verb.asks() {
            self.make(verb);
            return Ok(());
        }
        print::question(rt, text)?;
        match verb {
            Verb::Settle => self.settle(rt)?,
            _ => self.ask(rt, verb)?,
        }
        print::line_ends(rt)
    }
}
