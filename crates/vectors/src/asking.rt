// What a script asks of sizes and tables. An error is of printing alone: what was asked is done.
ghost use Rattle.std.specs.Prelude.{◌≡◌};
ghost use Rattle.settle.specs.Settle.{table_after, scratch_after};

use crate::line::{Args, NUMBERS_MOST};
use crate::print;
use judge::Shown;
use std::io;

pub fn print_shape<P: Print>(rt: &P, sizes: &[u8], table: &[u32]) -> io::Result<()> {
    match table::shape(sizes, table) {
        Ok(()) => print::number(rt, 0),
        Err(r) => print::refusal(rt, r),
    }
}

pub fn print_kept<P: Print>(rt: &P, sizes: &[u8], table: &[u32], field: usize) -> io::Result<()> {
    match judge::kept(sizes, table, field) {
        Ok(readings) => print::numbers(rt, &[0, readings]),
        Err(r) => print::refusal(rt, r),
    }
}

pub fn print_rows<P: Print>(rt: &P, sizes: &[u8], table: &[u32]) -> io::Result<()> {
    match judge::judge(sizes, table) {
        Ok(None) => print::number(rt, 0),
        Ok(Some(broken)) => print::numbers(rt, &[0, broken.i, broken.j, broken.a]),
        Err(r) => print::refusal(rt, r),
    }
}

// The words of a cell: which table they are from, where they start, and they themselves.
pub fn print_cell<'a, P: Print>(
    rt: &P,
    sizes: &[u8],
    opening: &'a [u32],
    settled: &'a [u32],
    i: usize,
    j: usize,
) -> io::Result<()> {
    match judge::shown_from(sizes, opening, settled, i, j) {
        Ok(Shown::Settled(at)) => print::numbers(rt, &[0, 0, at])?,
        Ok(Shown::Opening(at)) => print::numbers(rt, &[0, 1, at])?,
        Err(r) => print::refusal(rt, r)?,
    }
    print::numbers(rt, judge::show(sizes, opening, settled, i, j))
}

// The table and the scratch are left as settling leaves them, also where the answer could not be printed.
pub fn print_settling<P: Print>(
    rt: &P,
    sizes: &[u8],
    table: &mut [u32],
    scratch: &mut [u32],
    budget: u64,
) -> io::Result<()>
    ensures table { table.new ≡ table_after sizes.now table.old scratch.old budget }
    ensures scratch { scratch.new ≡ scratch_after sizes.now table.old scratch.old budget }
{
    let settling = settle::settle(sizes, table, scratch, budget);
    match settling {
        Ok(None) => print::number(rt, 0),
        Ok(Some(end)) => print::numbers(rt, &[0, end.rounds, u64::from(end.empty)]),
        Err(r) => print::refusal(rt, r),
    }
}

// The line's numbers are the fixed choices; the answer has a byte for each size.
pub fn print_choice<P: Print>(rt: &P, sizes: &[u8], table: &[u32], args: &Args) -> io::Result<()> {
    let n = sizes.len().min(NUMBERS_MOST);
    let mut answer = [0u8; NUMBERS_MOST];
    match choose::choose(sizes, table, &args.bytes(), &mut answer[..n]) {
        Ok(()) => {
            print::number(rt, 0)?;
            print::numbers(rt, &answer[..n])
        }
        Err(r) => print::refusal(rt, r),
    }
}
