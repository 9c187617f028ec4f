// A sheet read, what it was read into, and what is asked of that. An error is of printing alone.
ghost use Rattle.std.specs.Prelude.{◌≡◌, ◌≤◌, OnErr};
ghost use Rattle.vectors.specs.Numbers.{size_at};

use crate::lent;
use crate::lent::{Element, Traces};
use crate::verbs::Verb;
use refusal::Refusal;
use sheet::{DAYS_MOST, WORDS_MOST};
use std::io;
use table::{FIELDS_MOST, READINGS_MOST};
use vectors::line::Args;
use vectors::{asking, print};

// More than the longest sheet needs of each buffer, so that a script can lend too much.
const SIZES_ROOM: usize = 32;

const DAYS_ROOM: usize = 600;

const WORDS_ROOM: usize = 8400;

// How much of each buffer is lent, and the fields that were read last: lengths apart from the buffers, since a script lends more or
// less than there is.
#[derive(Clone, Copy)]
pub struct Set {
    sizes: usize,
    days: usize,
    table: usize,
    fields: usize,
}

// What sheets are read into, and what is asked and settled.
#[derive(Drop)]
pub struct Lent {
    pub set: Set,
    sizes: [u8; SIZES_ROOM],
    days: [u16; DAYS_ROOM],
    table: [u32; WORDS_ROOM],
    scratch: [u32; WORDS_ROOM],
}

impl Lent {
    // As much is lent as the longest sheet needs, and nothing is read.
    pub fn new() -> Lent
        ensures sizes { result.set.sizes ≡ FIELDS_MOST }
        ensures days { result.set.days ≡ DAYS_MOST }
        ensures table { result.set.table ≡ WORDS_MOST }
        ensures fields { result.set.fields ≡ 0 }
    {
        Lent {
            set: Set {
                sizes: FIELDS_MOST,
                days: DAYS_MOST,
                table: WORDS_MOST,
                fields: 0,
            },
            sizes: [0; SIZES_ROOM],
            days: [0; DAYS_ROOM],
            table: [0; WORDS_ROOM],
            scratch: [0; WORDS_ROOM],
        }
    }

    // The numbers of the line are how much is lent.
    pub fn lend(&mut self, args: &Args)
        ensures sizes { self.new.set.sizes ≡ size_at args.now 0 }
        ensures days { self.new.set.days ≡ size_at args.now 1 }
        ensures table { self.new.set.table ≡ size_at args.now 2 }
        ensures fields { self.new.set.fields ≡ self.old.set.fields }
    {
        self.set.sizes = args.at(0).size();
        self.set.days = args.at(1).size();
        self.set.table = args.at(2).size();
    }

    // Reads a sheet into what is lent, and tells how far that is gone.
    fn read(&mut self, sheet: &[u8]) -> (Result<usize, Refusal>, Traces)
        ensures { self.new.set ≡ self.old.set }
    {
        // A part of a field's array is cut from a slice of the whole: in one step it gets no generated proof.
        let sizes = &mut self.sizes[..];
        let days = &mut self.days[..];
        let table = &mut self.table[..];
        let sizes = &mut sizes[..self.set.sizes.min(SIZES_ROOM)];
        let days = &mut days[..self.set.days.min(DAYS_ROOM)];
        let table = &mut table[..self.set.table.min(WORDS_ROOM)];
        sizes.fill(u8::PATTERN);
        days.fill(u16::PATTERN);
        table.fill(u32::PATTERN);
        let opened = sheet::read_sheet(sheet, sizes, days, table);
        (opened, lent::seen(sizes, days, table))
    }

    // A line and what reading the sheet gives: the state, the fields, how far each buffer is written and a sum of that, or the refusal
    // and how far. Answers the fields.
    fn print_read<P: Print>(&mut self, rt: &P, line: &[u8], sheet: &[u8]) -> io::Result<usize>
        ensures { self.new.set ≡ self.old.set }
    {
        print::question(rt, line)?;
        let (opened, seen) = self.read(sheet);
        let fields = match opened {
            Ok(n) => {
                print::numbers(rt, &[0, n])?;
                print_written(rt, seen)?;
                print::text(rt, b" sum")?;
                print::number(rt, seen.sum)?;
                n
            }
            Err(r) => {
                print::refusal(rt, r)?;
                print_written(rt, seen)?;
                0
            }
        };
        print::line_ends(rt)?;
        Ok(fields)
    }

    // Every cut of the sheet, from nothing to all of it, a line each. Answers the fields of the last.
    fn print_cuts<P: Print>(&mut self, rt: &P, sheet: &[u8]) -> io::Result<usize>
        ensures { self.new.set ≡ self.old.set }
    {
        let mut fields = 0;
        for k in 0..=sheet.len() {
            print::text(rt, b"cut")?;
            print::number(rt, k)?;
            fields = self.print_read(rt, b"", &sheet[..k])?;
        }
        Ok(fields)
    }

    // A line that reads the sheet or starts of it, printed with what is read.
    pub fn run_read<P: Print>(
        &mut self,
        rt: &P,
        verb: Verb,
        text: &[u8],
        args: &Args,
        sheet: &[u8],
    ) -> io::Result<()>
        ensures sizes { self.new.set.sizes ≡ self.old.set.sizes }
        ensures days { self.new.set.days ≡ self.old.set.days }
        ensures table { self.new.set.table ≡ self.old.set.table }
        ensures err { OnErr result (self.new.set ≡ self.old.set) }
    {
        let fields = match verb {
            Verb::Cuts => self.print_cuts(rt, sheet)?,
            Verb::Cut => {
                let end = args.at(0).size().min(sheet.len());
                self.print_read(rt, text, &sheet[..end])?
            }
            _ => self.print_read(rt, text, sheet)?,
        };
        self.set.fields = fields;
        Ok(())
    }

    // The words of the table of the fields that were read.
    fn words(&self) -> usize
        ensures { result ≤ WORDS_ROOM }
    {
        let n = self.set.fields.min(FIELDS_MOST);
        table::table_length(n).min(WORDS_ROOM)
    }

    // A line that asks something of what was read, by functions that take different things.
    pub fn ask<P: Print>(&self, rt: &P, verb: Verb, args: &Args) -> io::Result<()> {
        let sizes = &self.sizes[..self.set.fields.min(FIELDS_MOST)];
        let table = &self.table[..self.words()];
        let field = args.at(0).size();
        match verb {
            Verb::Field => print_field(rt, sizes, &self.days, field),
            Verb::Cell => print_cell(rt, sizes, table, field, args.at(1).size()),
            Verb::Kept => asking::print_kept(rt, sizes, table, field),
            Verb::Judge => asking::print_rows(rt, sizes, table),
            Verb::Choose => asking::print_choice(rt, sizes, table, args),
            _ => Ok(()),
        }
    }

    // A line that settles: the budget.
    pub fn settle<P: Print>(&mut self, rt: &P, args: &Args) -> io::Result<()>
        ensures { self.new.set ≡ self.old.set }
    {
        let words = self.words();
        let sizes = &self.sizes[..self.set.fields.min(FIELDS_MOST)];
        // A part of a field's array is cut from a slice of the whole: in one step it gets no generated proof.
        let table = &mut self.table[..];
        let scratch = &mut self.scratch[..];
        let budget = args.at(0).value;
        asking::print_settling(
            rt,
            sizes,
            &mut table[..words],
            &mut scratch[..words],
            budget,
        )
    }
}

fn print_written<P: Print>(rt: &P, seen: Traces) -> io::Result<()> {
    print::text(rt, b" wrote")?;
    print::numbers(rt, &[seen.sizes, seen.days, seen.table])
}

// The size and the days of a field, which stand at 32 times its number.
fn print_field<P: Print>(rt: &P, sizes: &[u8], days: &[u16], i: usize) -> io::Result<()> {
    let Some(size) = sizes.get(i) else {
        return Ok(());
    };
    print::number(rt, *size)?;
    let days = days.chunks(READINGS_MOST).nth(i).unwrap_or_default();
    print::first(rt, days, usize::from(*size))
}

// The rows of a cell, one for each reading of its first field.
fn print_cell<P: Print>(rt: &P, sizes: &[u8], table: &[u32], i: usize, j: usize) -> io::Result<()> {
    let Some(size) = sizes.get(i) else {
        return Ok(());
    };
    let words = judge::show(sizes, table, table, i, j);
    print::first(rt, words, usize::from(*size))
}
