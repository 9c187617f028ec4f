// Records that add a field: DT, DS and FD.
ghost use Rattle.std.specs.Prelude.{◌≡◌, ◌&&◌, ◌⊎◌, [], ◌∷◌, ◌++◌, ◌+◌, ◌-◌, ◌*◌, ◌≤◌, length, replicate};
ghost use Rattle.theory.specs.Limits.{readings_most};
ghost use Rattle.calendar.specs.Ascending.{ascending};
ghost use Rattle.calendar.specs.DateText.{dates_most, date_length, separator};
ghost use Rattle.calendar.specs.DateAnswers.{padded};
ghost use Rattle.table.specs.Layout.{tabulate};
ghost use Rattle.refusal.specs.Refusals.{number};
ghost use Rattle.refusal.specs.Said.{says, refused};
ghost use Rattle.scan.specs.Sheet.{number_at, early, date_at, days_at};
ghost use Rattle.scan.specs.Judging.{field_by, ReadsField};

use crate::mark::Mark;
use crate::number;
use calendar::{DATE_LENGTH, DATES, LAST_DAY, SHORT_LENGTH};
use refusal::Refusal;
use table::READINGS_MOST;

// A field's size, where the next record starts, and the field's days, then zeros.
#[derive(Clone, Copy)]
pub struct FieldRead {
    pub size: u8,
    pub next: usize,
    pub days: [u16; READINGS_MOST],
}

// A date text's refusal, with the place of its record.
fn placed(r: Refusal, at: usize) -> Refusal
    requires { (number r ≡ 19) ⊎ (number r ≡ 20) }
    ensures { refused result ≡ says (number r) (at ∷ []) }
{
    match r {
        Refusal::Unreal | Refusal::UnrealAt(_) => Refusal::UnrealAt(at),
        _ => Refusal::ShapelessAt(at),
    }
}

// The days of a date text, then zeros.
fn widened(days: [u16; DATES]) -> [u16; READINGS_MOST]
    ensures { result ≡ days ++ replicate (readings_most - dates_most) 0 }
{
    let mut wide = [0u16; READINGS_MOST];
    wide[..DATES].copy_from_slice(&days);
    wide
}

// DT and DS: a date text of so many bytes.
#[tactic(auto, unfolding(crate::specs::Sheet::date_at))]
fn date_at(sheet: &[u8], at: usize, size: usize) -> Result<FieldRead, Refusal>
    requires { (at ≤ length sheet.now) × (size ≤ date_length) }
    ensures { ReadsField (date_at separator size sheet.now at) result }
{
    let from = at + 2;
    let next = from + size;
    if sheet.len() < next {
        return Err(Refusal::Cut(at));
    }
    match calendar::read_date(&sheet[from..next]) {
        Ok(dates) => Ok(FieldRead {
            size: dates.count as u8,
            next,
            days: widened(dates.days),
        }),
        Err(r) => Err(placed(r, at)),
    }
}

// The days that an FD may list: they rise, so that the last of them is the latest.
fn is_right(days: &[u16]) -> bool
    ensures { result ≡ (ascending days.now && early days.now) }
{
    let n = days.len();
    if !days.is_sorted_by(|a, b| a < b) {
        return false;
    }
    n == 0 || days[n - 1] <= LAST_DAY
}

// So many numbers from an offset on, then zeros.
fn listed(sheet: &[u8], from: usize, count: usize) -> [u16; READINGS_MOST]
    requires { (count ≤ readings_most) × (from + 2 * count ≤ length sheet.now) }
    ensures { result ≡ padded readings_most (tabulate count (λ k. number_at sheet.now (from + 2 * k))) }
{
    let mut days = [0u16; READINGS_MOST];
    for k in 0..count {
        days[k] = number::number_at(sheet, from + 2 * k);
    }
    days
}

// FD: a count, and as many days.
#[tactic(auto, unfolding(crate::specs::Sheet::days_at))]
fn days_at(sheet: &[u8], at: usize) -> Result<FieldRead, Refusal>
    requires { at ≤ length sheet.now }
    ensures { ReadsField (days_at sheet.now at) result }
{
    if sheet.len() < at + 3 {
        return Err(Refusal::Cut(at));
    }
    let count = number::byte_at(sheet, at + 2);
    if count < 1 || count > READINGS_MOST {
        return Err(Refusal::Days(at));
    }
    let next = at + 3 + 2 * count;
    if sheet.len() < next {
        return Err(Refusal::Cut(at));
    }
    let days = listed(sheet, at + 3, count);
    if !is_right(&days[..count]) {
        return Err(Refusal::Days(at));
    }
    Ok(FieldRead {
        size: count as u8,
        next,
        days,
    })
}

// The field that the record adds, whose mark is DT, DS or FD: an enum says which, and the arms call functions that take different things.
pub fn field_at(sheet: &[u8], at: usize, mark: Mark) -> Result<FieldRead, Refusal>
    requires { at ≤ length sheet.now }
    ensures { ReadsField (field_by separator mark sheet.now at) result }
{
    match mark {
        Mark::Date => date_at(sheet, at, DATE_LENGTH),
        Mark::Short => date_at(sheet, at, SHORT_LENGTH),
        _ => days_at(sheet, at),
    }
}
