// The text of a table: settled, then line by line. Sizes, days and table are lent apart, since settling, judging and choosing take only
// some of them.
ghost use Rattle.std.specs.Prelude.{◌≤◌, ◌*◌, length};
ghost use Rattle.theory.specs.Limits.{readings_most, rounds_most};
ghost use Rattle.table.specs.Layout.{rel, size_of};
ghost use Rattle.table.specs.Shape.{GoodTable};
ghost use Rattle.text.specs.Puts.{HasRoom, Puts};
ghost use Rattle.listing.specs.Listing.{text_most, day_in, settled_lines, opened_text, Ended};

use crate::fields::put_fields;
use crate::first::put_first;
use crate::rows::put_rows;
use sheet::WORDS_MOST;
use text::Writer;

// Settling never takes more rounds.
const ROUNDS_MOST: u64 = 123392;

// The text of a settled table that took r rounds.
fn put_settled(w: &mut Writer, r: usize, sizes: &[u8], days: &[u16], table: &[u32])
    requires { Ended sizes.now table.now days.now × (r ≤ rounds_most) × HasRoom w.old text_most }
    ensures { Puts w.old w.new (settled_lines sizes.now table.now (day_in days.now) r) }
{
    w.put_state(0, &[]);
    w.put_rounds(r);
    put_fields(w, table, sizes.len(), days);
    put_rows(w, sizes, table);
    put_first(w, sizes, days, table);
}

// The text of an opening table, which is settled on the way. A table of good shape is not refused, and the budget suffices.
pub fn put_opened(w: &mut Writer, sizes: &[u8], days: &[u16], table: &mut [u32])
    requires { GoodTable sizes.now table.old × (length sizes.now * readings_most ≤ length days.now) × HasRoom w.old text_most }
    ensures { Puts w.old w.new (opened_text (length sizes.now) (size_of sizes.now) (day_in days.now) (rel (length sizes.now) table.old)) }
{
    let mut scratch = [0u32; WORDS_MOST];
    let words = table.len();
    match settle::settle(sizes, table, &mut scratch[..words], ROUNDS_MOST) {
        Ok(Some(settled)) => put_settled(w, settled.rounds as usize, sizes, days, table),
        Ok(None) => {}
        Err(_) => {}
    }
}
