// The line of the first reading.
ghost use Rattle.std.specs.Prelude.{◌++◌, length};
ghost use Rattle.table.specs.Layout.{rel, size_of};
ghost use Rattle.choose.specs.Choosing.{choice_of};
ghost use Rattle.text.specs.Text.{ascii, numbers, line_feed, first_line};
ghost use Rattle.text.specs.Puts.{Fits, Puts};
ghost use Rattle.listing.specs.Listing.{day_in, days_of, chosen_days, Answered, Ended};

use crate::fields::put_days;
use choose::FREE;
use table::FIELDS_MOST;
use text::Writer;

// The days of an answer.
fn put_chosen(w: &mut Writer, answer: &[u8], days: &[u16])
    requires { Answered answer.now days.now × Fits w.old (ascii "first" ++ numbers (days_of (length answer.now) (day_in days.now) (choice_of answer.now)) ++ line_feed) }
    ensures { Puts w.old w.new (ascii "first" ++ numbers (days_of (length answer.now) (day_in days.now) (choice_of answer.now)) ++ line_feed) }
{
    w.put_bytes(b"first");
    put_days(w, answer, days);
    w.put_byte(b'\n');
}

// The days chosen with nothing fixed. Choosing refuses a settled table only where it is empty or a row is broken.
pub fn put_first(w: &mut Writer, sizes: &[u8], days: &[u16], table: &[u32])
    requires { Ended sizes.now table.now days.now × Fits w.old (first_line (chosen_days (length sizes.now) (size_of sizes.now) (day_in days.now) (rel (length sizes.now) table.now))) }
    ensures { Puts w.old w.new (first_line (chosen_days (length sizes.now) (size_of sizes.now) (day_in days.now) (rel (length sizes.now) table.now))) }
{
    let n = sizes.len();
    let fixed = [FREE; FIELDS_MOST];
    let mut answer = [0u8; FIELDS_MOST];
    match choose::choose(sizes, table, &fixed[..n], &mut answer[..n]) {
        Ok(()) => put_chosen(w, &answer[..n], days),
        Err(_) => w.put_line(b"first none", &[]),
    }
}
