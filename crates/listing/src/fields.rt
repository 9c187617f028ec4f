// The days that are printed, and the lines of the fields. A table comes with its number of fields, as the functions of table take them.
ghost use Rattle.std.specs.Prelude.{◌≡◌, ◌<◌, ◌+◌, ◌*◌, length};
ghost use Rattle.theory.specs.Limits.{readings_most};
ghost use Rattle.table.specs.Layout.{rel};
ghost use Rattle.choose.specs.Choosing.{choice_of};
ghost use Rattle.text.specs.Text.{numbers, joined, field_line};
ghost use Rattle.text.specs.Puts.{Fits, Puts};
ghost use Rattle.listing.specs.Listing.{day_in, kept_days, days_of, Dated, Answered};

use arrayvec::ArrayVec;
use table::layout::{READINGS_MOST, row_word};
use text::Writer;

// The day of reading a of field i.
fn day(days: &[u16], i: usize, a: usize) -> usize
    requires { i * readings_most + a < length days.now }
    ensures { result ≡ day_in days.now i a }
{
    usize::from(days[i * READINGS_MOST + a])
}

// The days of the readings that field i keeps, of which the count is put first.
fn kept_days(table: &[u32], n: usize, i: usize, days: &[u16]) -> ArrayVec<usize, READINGS_MOST>
    requires { Dated n table.now days.now × (i < n) }
    ensures { result.items ≡ kept_days (rel n table.now) (day_in days.now) i }
{
    let mut found = ArrayVec::new();
    for a in 0..READINGS_MOST {
        if words::has(row_word(table, n, i, i, a), a as u32) {
            found.push(day(days, i, a));
        }
    }
    found
}

// The days of the readings of an answer, one for each field, a space before each.
pub fn put_days(w: &mut Writer, answer: &[u8], days: &[u16])
    requires { Answered answer.now days.now × Fits w.old (numbers (days_of (length answer.now) (day_in days.now) (choice_of answer.now))) }
    ensures { Puts w.old w.new (numbers (days_of (length answer.now) (day_in days.now) (choice_of answer.now))) }
{
    for (i, a) in answer.iter().enumerate() {
        w.put_numbers(&[day(days, i, usize::from(*a))]);
    }
}

// The line of a field and the days it keeps.
fn put_kept(w: &mut Writer, i: usize, days: &[usize])
    requires { Fits w.old (field_line i days.now) }
    ensures { Puts w.old w.new (field_line i days.now) }
{
    w.put_said(b"field", &[i]);
    w.put_said(b" kept", &[days.len()]);
    w.put_line(b"", days);
}

// The line of field i.
fn put_field(w: &mut Writer, table: &[u32], n: usize, i: usize, days: &[u16])
    requires { Dated n table.now days.now × (i < n) × Fits w.old (field_line i (kept_days (rel n table.now) (day_in days.now) i)) }
    ensures { Puts w.old w.new (field_line i (kept_days (rel n table.now) (day_in days.now) i)) }
{
    put_kept(w, i, &kept_days(table, n, i, days));
}

// The lines of all n fields.
pub fn put_fields(w: &mut Writer, table: &[u32], n: usize, days: &[u16])
    requires { Dated n table.now days.now × Fits w.old (joined n (λ i. field_line i (kept_days (rel n table.now) (day_in days.now) i))) }
    ensures { Puts w.old w.new (joined n (λ i. field_line i (kept_days (rel n table.now) (day_in days.now) i))) }
{
    for i in 0..n {
        put_field(w, table, n, i, days);
    }
}
