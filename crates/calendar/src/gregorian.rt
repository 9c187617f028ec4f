// The Gregorian calendar as ISO 8601 uses it, and its days numbered from 1 January 2000. Year, month and day go as three numbers: a
// text's pairs are each of the three in turn, and a struct of them would be made at each call and taken apart in it.
ghost use Rattle.std.specs.Prelude.{◌≡◌, ◌+◌, ◌-◌, ◌≤◌};
ghost use Rattle.theory.specs.Bound.{sum};
ghost use Rattle.calendar.specs.Calendar.{first_year, last_year, date, leap, month_length, year_length, real, OfCentury, day_of};

// The years of a date text.
pub(crate) const FIRST_YEAR: u32 = 2000;

pub(crate) const LAST_YEAR: u32 = 2099;

// Every fourth year, of the hundredth years every fourth.
#[tactic(auto, unfolding(crate::specs::Calendar::leap))]
fn is_leap(y: u32) -> bool
    ensures { result ≡ leap y }
{
    y % 4 == 0 && (y % 100 != 0 || y % 400 == 0)
}

// The days of a month; 0 where `m` is no month.
#[tactic(auto, using(crate::specs::CalendarLaws::month_over), unfolding(crate::specs::Calendar::month_length, crate::specs::Calendar::months))]
fn month_length(y: u32, m: u32) -> u32
    ensures { result ≡ month_length y m }
{
    match m {
        2 => if is_leap(y) { 29 } else { 28 },
        4 | 6 | 9 | 11 => 30,
        1..=12 => 31,
        _ => 0,
    }
}

// The month has such a day.
#[tactic(auto, unfolding(crate::specs::Calendar::real))]
pub(crate) fn is_real(y: u32, m: u32, d: u32) -> bool
    ensures { result ≡ real (date y m d) }
{
    (1..=month_length(y, m)).contains(&d)
}

// Of the years before `y`, every fourth is a leap year from the first on.
fn years_before(y: u32) -> u32
    requires { (first_year ≤ y) × (y ≤ last_year) }
    ensures { result ≡ sum (y - first_year) (λ k. year_length (first_year + k)) }
{
    let k = y - FIRST_YEAR;
    365 * k + (k + 3) / 4
}

// The month lengths before month `m` added up.
fn months_before(y: u32, m: u32) -> u32
    requires { (1 ≤ m) × (m ≤ 12) }
    ensures { result ≡ sum m (month_length y) }
{
    let mut days = 0;
    for k in 1..m {
        days += month_length(y, k);
    }
    days
}

// The number of a real date of the century.
pub(crate) fn day_number(y: u32, m: u32, d: u32) -> u32
    requires { OfCentury (date y m d) }
    ensures { result ≡ day_of (date y m d) }
{
    years_before(y) + months_before(y, m) + (d - 1)
}
