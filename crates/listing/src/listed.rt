// The text of a sheet.
ghost use Rattle.calendar.specs.DateText.{separator};
ghost use Rattle.text.specs.Writing.{Shows};
ghost use Rattle.text.specs.Puts.{HasRoom, Puts};
ghost use Rattle.listing.specs.Listing.{text_most, list_text, Filled, filled_text, answer_text, Left};

use crate::settled::put_opened;
use refusal::Refusal;
use sheet::{DAYS_MOST, WORDS_MOST};
use table::FIELDS_MOST;
use text::{Text, Writer};

// A text has at most so many bytes.
pub const TEXT_MOST: usize = 3489;

// A sheet's text.
pub type Listing = Text<TEXT_MOST>;

// The text of n fields, from the parts of the lent buffers that they fill.
fn put_filled(w: &mut Writer, n: usize, sizes: &[u8], days: &[u16], table: &mut [u32])
    requires { Filled n sizes.now days.now table.old × HasRoom w.old text_most }
    ensures { Puts w.old w.new (filled_text n sizes.now days.now table.old) }
{
    let words = table::table_length(n);
    put_opened(w, &sizes[..n], days, &mut table[..words]);
}

// The text of what reading a sheet answered and left.
fn put_answer(
    w: &mut Writer,
    answer: Result<usize, Refusal>,
    sizes: &[u8],
    days: &[u16],
    table: &mut [u32],
)
    requires { Left answer sizes.now days.now table.old × HasRoom w.old text_most }
    ensures { Puts w.old w.new (answer_text answer sizes.now days.now table.old) }
{
    match answer {
        Ok(n) => put_filled(w, n, sizes, days, table),
        Err(r) => w.put_refusal(r),
    }
}

// The text of a sheet.
pub fn list_sheet(sheet: &[u8]) -> Listing
    ensures { Shows text_most (list_text separator sheet.now) result.bytes result.length }
{
    let mut sizes = [0u8; FIELDS_MOST];
    let mut days = [0u16; DAYS_MOST];
    let mut table = [0u32; WORDS_MOST];
    let answer = sheet::read_sheet(sheet, &mut sizes, &mut days, &mut table);
    let mut bytes = [0u8; TEXT_MOST];
    let mut text = Writer {
        out: &mut bytes,
        at: 0,
    };
    put_answer(&mut text, answer, &sizes, &days, &mut table);
    let length = text.at;
    Text { bytes, length }
}
