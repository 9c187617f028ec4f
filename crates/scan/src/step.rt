// One record judged: whether it is whole and right, and where the next one starts. A sheet and an offset are two parameters, since
// docs/PROMISES.md names `judge_at`, `field_at`, `mark_at`, `byte_at` and `number_at`.
ghost use Rattle.std.specs.Prelude.{◌≡◌, ◌+◌, ◌≤◌, length};
ghost use Rattle.calendar.specs.DateText.{separator};
ghost use Rattle.scan.specs.Sheet.{adds, gap_at, strike_at, end_at, step_at};
ghost use Rattle.scan.specs.Judging.{gist, gist_of, field_by};

use crate::mark::Mark;
use crate::record::{Interval, Pair};
use crate::{field, mark};
use refusal::Refusal;
use table::FIELDS_MOST;

#[derive(Clone, Copy)]
pub enum Verdict {
    // DT, DS, FD: a field of that many readings; the next record's offset
    Field(u8, usize),
    // GP, PR: the next record's offset
    Rule(usize),
    // EN
    End,
}

fn judge_field(
    sheet: &[u8],
    at: usize,
    mark: Mark,
    sizes: &[u8],
    late: bool,
) -> Result<Verdict, Refusal>
    requires { at ≤ length sheet.now }
    ensures { gist_of result ≡ gist (adds (record { sizes = sizes.now; late = late }) at (field_by separator mark sheet.now at)) }
{
    if late {
        return Err(Refusal::Late(at));
    }
    if sizes.len() >= FIELDS_MOST {
        return Err(Refusal::Many(at));
    }
    let read = field::field_at(sheet, at, mark)?;
    Ok(Verdict::Field(read.size, read.next))
}

// GP and PR are judged by two functions: a trait of their length, reading, test and law is longer than both.
#[tactic(auto, unfolding(crate::specs::Sheet::gap_at))]
fn judge_gap(sheet: &[u8], at: usize, sizes: &[u8]) -> Result<Verdict, Refusal>
    requires { at ≤ length sheet.now }
    ensures { gist_of result ≡ gist (gap_at sizes.now sheet.now at) }
{
    if sheet.len() < at + 8 {
        return Err(Refusal::Cut(at));
    }
    if !Interval::at(sheet, at).is_right(sizes) {
        return Err(Refusal::Pair(at));
    }
    Ok(Verdict::Rule(at + 8))
}

#[tactic(auto, unfolding(crate::specs::Sheet::strike_at))]
fn judge_strike(sheet: &[u8], at: usize, sizes: &[u8]) -> Result<Verdict, Refusal>
    requires { at ≤ length sheet.now }
    ensures { gist_of result ≡ gist (strike_at sizes.now sheet.now at) }
{
    if sheet.len() < at + 6 {
        return Err(Refusal::Cut(at));
    }
    if !Pair::at(sheet, at).is_right(sizes) {
        return Err(Refusal::Pair(at));
    }
    Ok(Verdict::Rule(at + 6))
}

#[tactic(auto, unfolding(crate::specs::Sheet::end_at))]
fn judge_end(sheet: &[u8], at: usize, sizes: &[u8]) -> Result<Verdict, Refusal>
    requires { at + 2 ≤ length sheet.now }
    ensures { gist_of result ≡ gist (end_at sizes.now sheet.now at) }
{
    if sizes.is_empty() {
        return Err(Refusal::Fields);
    }
    if sheet.len() != at + 2 {
        return Err(Refusal::After(at));
    }
    Ok(Verdict::End)
}

// The record at an offset, after records that have said the fields' sizes, and whether a GP or PR came.
#[tactic(auto, unfolding(crate::specs::Sheet::step_at))]
pub fn judge_at(sheet: &[u8], at: usize, sizes: &[u8], late: bool) -> Result<Verdict, Refusal>
    requires { at ≤ length sheet.now }
    ensures { gist_of result ≡ gist (step_at separator (record { sizes = sizes.now; late = late }) sheet.now at) }
{
    if sheet.len() < at + 2 {
        return Err(Refusal::Cut(at));
    }
    let mark = mark::mark_at(sheet, at);
    // an enum says which, and the arms call functions that take different things
    match mark {
        Mark::Date | Mark::Short | Mark::Days => judge_field(sheet, at, mark, sizes, late),
        Mark::Gap => judge_gap(sheet, at, sizes),
        Mark::Strike => judge_strike(sheet, at, sizes),
        Mark::End => judge_end(sheet, at, sizes),
        Mark::Unknown => Err(Refusal::Mark(at)),
    }
}
