// The bytes of a date text: where its digits and separators stand, and the numbers in it.
ghost use Rattle.std.specs.Prelude.{◌≡◌, ◌&&◌, ◌+◌, ◌-◌, ◌≤◌, ◌<◌, length, get_or};
ghost use Rattle.theory.specs.Bound.{all};
ghost use Rattle.calendar.specs.DateText.{date_length, short_length, separator, pair_at, year_in, digit, fits_at, laid_out, shaped_long};

use crate::DATE_LENGTH;
use crate::gregorian::{FIRST_YEAR, LAST_YEAR};

// The paper's separators.
#[tactic(auto, unfolding(crate::specs::DateText::separator))]
fn separates(b: u8) -> bool
    ensures { result ≡ separator b }
{
    matches!(b, b'/' | b'.' | b'-')
}

// The two bytes from place `i` on are digits.
#[tactic(auto, unfolding(crate::specs::DateText::digit))]
fn digits_at(text: &[u8], i: usize) -> bool
    requires { i + 1 < length text.now }
    ensures { result ≡ (digit (get_or text.now i 0) && digit (get_or text.now (i + 1) 0)) }
{
    text[i].is_ascii_digit() && text[i + 1].is_ascii_digit()
}

// The first eight bytes, alike in both kinds of text, are in order; one place after the other, since a
// loop over them would ask at each turn which kind of place it is at.
#[tactic(auto, using(crate::proofs::Laid::front_is))]
fn front_fits(text: &[u8]) -> bool
    requires { short_length ≤ length text.now }
    ensures { result ≡ all short_length (fits_at separator text.now) }
{
    separates(text[2])
        && text[5] == text[2]
        && digits_at(text, 0)
        && digits_at(text, 3)
        && digits_at(text, 6)
}

// The shape of a text with a year of two digits. Whoever has tested the length says so: an array of eight bytes would have to be
// converted to, and that can fail.
#[tactic(auto, unfolding(crate::specs::DateText::laid_out))]
pub(crate) fn shaped_short(text: &[u8]) -> bool
    requires { length text.now ≡ short_length }
    ensures { result ≡ laid_out separator short_length text.now }
{
    front_fits(text)
}

// A digit's number; 0 below the digits.
fn value(b: u8) -> u32
    ensures { result ≡ b - 48 }
{
    b.saturating_sub(b'0') as u32
}

// The number of the two digits at place `i`.
#[tactic(auto, unfolding(crate::specs::DateText::pair_at))]
pub(crate) fn pair_at(text: &[u8], i: usize) -> u32
    requires { i + 1 < length text.now }
    ensures { result ≡ pair_at text.now i }
{
    value(text[i]) * 10 + value(text[i + 1])
}

// The year of four digits.
#[tactic(auto, unfolding(crate::specs::DateText::year_in, crate::specs::DateText::pair_at))]
pub(crate) fn year_in(text: &[u8]) -> u32
    requires { date_length ≤ length text.now }
    ensures { result ≡ year_in text.now }
{
    pair_at(text, 6) * 100 + pair_at(text, 8)
}

// The shape of a text with a year of four digits, and that a year of the century.
#[tactic(auto, using(crate::proofs::Laid::long_is))]
pub(crate) fn shaped_long(text: &[u8]) -> bool
    ensures { result ≡ shaped_long separator text.now }
{
    text.len() == DATE_LENGTH
        && front_fits(text)
        && digits_at(text, 8)
        && (FIRST_YEAR..=LAST_YEAR).contains(&year_in(text))
}
