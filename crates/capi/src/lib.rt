// What C and other languages are answered (include/frajqotta.h): each function answers with one number. The crate capi_c
// exports them.
#![tactic(auto)]

mod answers;
mod number;

ghost use Rattle.std.specs.Prelude.{◌≡◌};
ghost use Rattle.calendar.specs.DateText.{separator, means};
ghost use Rattle.calendar.specs.DateAnswers.{date_says};
ghost use Rattle.judge.specs.Asked.{rows_says, kept_says, show_says};
ghost use Rattle.sheet.specs.Opening.{reading};
ghost use Rattle.capi.specs.Packed.{packed_said, as_values, as_days, as_rows, as_shown};
ghost use Rattle.capi.specs.Promises.{PacksReading, PacksSettling, PacksChoice};

use answers::packed;

// The days that a date text can mean.
pub fn fq_date(text: &[u8]) -> u64
    ensures { result ≡ packed_said (as_days (means separator text.now)) (date_says separator text.now) }
{
    packed(calendar::read_date(text))
}

// A sheet read into sizes, days and the opening table.
pub fn fq_read(sheet: &[u8], sizes: &mut [u8], days: &mut [u16], table: &mut [u32]) -> u64
    ensures { PacksReading (reading separator sheet.now sizes.old days.old table.old) result sizes.new days.new table.new }
{
    packed(sheet::read_sheet(sheet, sizes, days, table))
}

// Settles the table within a budget of rounds.
pub fn fq_settle(sizes: &[u8], table: &mut [u32], scratch: &mut [u32], budget: u64) -> u64
    ensures { PacksSettling sizes.now table.old scratch.old budget result table.new scratch.new }
{
    packed(settle::settle(sizes, table, scratch, budget))
}

// Whole rows, or the first broken one.
pub fn fq_judge(sizes: &[u8], table: &[u32]) -> u64
    ensures { result ≡ packed_said as_rows (rows_says sizes.now table.now) }
{
    packed(judge::judge(sizes, table))
}

// The number of readings that a field keeps.
pub fn fq_kept(sizes: &[u8], table: &[u32], field: usize) -> u64
    ensures { result ≡ packed_said as_values (kept_says sizes.now table.now field) }
{
    packed(judge::kept(sizes, table, field))
}

// The first full reading that keeps the fixed readings, into answer.
pub fn fq_choose(sizes: &[u8], table: &[u32], fixed: &[u8], answer: &mut [u8]) -> u64
    ensures { PacksChoice sizes.now table.now fixed.now answer.old result answer.new }
{
    packed(choose::choose(sizes, table, fixed, answer))
}

// The table that a cell is shown from, and where it starts there.
pub fn fq_show(sizes: &[u8], opening: &[u32], settled: &[u32], i: usize, j: usize) -> u64
    ensures { result ≡ packed_said as_shown (show_says sizes.now opening.now settled.now i j) }
{
    packed(judge::shown_from(sizes, opening, settled, i, j))
}
