// A date text and the days it can mean (01, "Dates and sheets").
#![tactic(auto)]

mod found;
mod gregorian;
mod layout;

ghost use Rattle.std.specs.Prelude.{◌≡◌, length};
ghost use Rattle.calendar.specs.DateText.{separator, short_length};
ghost use Rattle.calendar.specs.DateAnswers.{ReadsDate};

use crate::gregorian::FIRST_YEAR;
use refusal::Refusal;

// The bytes of a date text, those of a short one, and how many dates a text shows at most.
pub const DATE_LENGTH: usize = 10;

pub const SHORT_LENGTH: usize = 8;

pub const DATES: usize = 3;

// The number of 31 December 2099.
pub const LAST_DAY: u16 = 36524;

// Ascending days, zeros past them: a count beside an array, since there is no heap and `ReadsDate` tells all three places.
#[derive(Clone, Copy)]
pub struct Days {
    pub count: usize,
    pub days: [u16; DATES],
}

// Not eight bytes: of the other lengths only that of DT is right, whose year has four digits and comes last.
fn read_long(text: &[u8]) -> Result<Days, Refusal>
    requires { length text.now ≡ short_length → ⊥ }
    ensures { ReadsDate separator text.now result }
{
    if !layout::shaped_long(text) {
        return Err(Refusal::Shapeless);
    }
    let y = layout::year_in(text);
    let a = layout::pair_at(text, 0);
    let b = layout::pair_at(text, 3);
    let month_first = Days::none().with_reading(y, a, b);
    month_first.with_reading(y, b, a).answer()
}

// DS: the year has two digits and comes last or first.
fn read_short(text: &[u8]) -> Result<Days, Refusal>
    requires { length text.now ≡ short_length }
    ensures { ReadsDate separator text.now result }
{
    if !layout::shaped_short(text) {
        return Err(Refusal::Shapeless);
    }
    let a = layout::pair_at(text, 0);
    let b = layout::pair_at(text, 3);
    let c = layout::pair_at(text, 6);
    let year_first = Days::none().with_reading(FIRST_YEAR + a, b, c);
    let month_first = year_first.with_reading(FIRST_YEAR + c, a, b);
    month_first.with_reading(FIRST_YEAR + c, b, a).answer()
}

// The days that a text can mean: eight bytes are DS, and of any other length only ten are right.
pub fn read_date(text: &[u8]) -> Result<Days, Refusal>
    ensures { ReadsDate separator text.now result }
{
    if text.len() == SHORT_LENGTH {
        read_short(text)
    } else {
        read_long(text)
    }
}
