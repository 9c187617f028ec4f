// Sheets opened: a sheet read into sizes, days and a table.
#![tactic(auto)]

mod fields;
mod gap;
mod open;
mod rules;

ghost use Rattle.std.specs.Prelude.{◌≡◌, ◌*◌, length};
ghost use Rattle.theory.specs.Limits.{readings_most};
ghost use Rattle.calendar.specs.DateText.{separator};
ghost use Rattle.table.specs.Layout.{table_length};
ghost use Rattle.sheet.specs.Opening.{Reads, reading};
ghost use Rattle.sheet.specs.Writing.{Judged, Opens};

use refusal::Refusal;
use table::{FIELDS_MOST, READINGS_MOST, table_length};

// A longer sheet is refused.
pub const SHEET_MOST: usize = 4096;

// What reading asks of the lent buffers: a size for each of 16 fields, 32 days for each, a word for each row.
pub const DAYS_MOST: usize = FIELDS_MOST * READINGS_MOST;

pub const WORDS_MOST: usize = FIELDS_MOST * FIELDS_MOST * READINGS_MOST;

// The write pass over a sheet that was judged: it finds no fault. Sizes, days and table are three buffers, as C lends them, and each
// pass over them takes as `&mut` what it writes alone: a struct of all three would lend all to each.
fn write(sheet: &[u8], sizes: &mut [u8], days: &mut [u16], table: &mut [u32])
    requires { Judged sheet.now (length sizes.old) × (length days.old ≡ length sizes.old * readings_most) × (length table.old ≡ table_length (length sizes.old)) }
    ensures { Opens sheet.now sizes.new days.new table.new }
{
    let at = fields::write_fields(sheet, sizes, days);
    open::open_table(sizes, table);
    rules::apply_rules(sheet, at, sizes, days, table);
}

// 13, 14, then the judge pass; only what it lets pass is written.
#[tactic(auto, unfolding(crate::specs::Opening::reading, crate::specs::Opening::lent))]
pub fn read_sheet(
    sheet: &[u8],
    sizes: &mut [u8],
    days: &mut [u16],
    table: &mut [u32],
) -> Result<usize, Refusal>
    ensures { Reads (reading separator sheet.now sizes.old days.old table.old) result sizes.new days.new table.new }
{
    if sizes.len() < FIELDS_MOST || days.len() < DAYS_MOST || table.len() < WORDS_MOST {
        return Err(Refusal::Short);
    }
    if sheet.len() > SHEET_MOST {
        return Err(Refusal::Long);
    }
    let n = scan::scan(sheet)?;
    let words = table_length(n);
    write(
        sheet,
        &mut sizes[..n],
        &mut days[..n * READINGS_MOST],
        &mut table[..words],
    );
    Ok(n)
}
