// The days found in a text so far, kept in order as they come.
ghost use Rattle.std.specs.Prelude.{[], ◌≤◌};
ghost use Rattle.calendar.specs.Calendar.{first_year, last_year, date};
ghost use Rattle.calendar.specs.Ascending.{insert};
ghost use Rattle.calendar.specs.DateText.{with_real};
ghost use Rattle.calendar.specs.DaysFound.{Answers, Holds, Room, held};

use crate::{Days, gregorian};
use refusal::Refusal;
use std::mem::swap;

impl Days {
    pub(crate) fn none() -> Days
        ensures { Holds [] result }
    {
        Days {
            count: 0,
            days: [0; crate::DATES],
        }
    }

    // The days with `n` among them, once: at each place the earlier of two stays and the later is carried on.
    fn with_day(self, n: u16) -> Days
        requires { Room self }
        ensures { Holds (insert n (held self)) result }
    {
        let count = self.count;
        let mut days = self.days;
        let mut carried = n;
        for p in 0..count {
            let here = days[p];
            if carried == here {
                return Days { count, days };
            }
            if carried < here {
                swap(&mut days[p], &mut carried);
            }
        }
        days[count] = carried;
        Days {
            count: count + 1,
            days,
        }
    }

    // The day of a date of the century is kept if the date is real.
    pub(crate) fn with_reading(self, y: u32, m: u32, d: u32) -> Days
        requires { (Room self) × (first_year ≤ y) × (y ≤ last_year) }
        ensures { Holds (with_real (date y m d) (held self)) result }
    {
        if gregorian::is_real(y, m, d) {
            self.with_day(gregorian::day_number(y, m, d) as u16)
        } else {
            self
        }
    }

    // The refusal where there is no day.
    pub(crate) fn answer(self) -> Result<Days, Refusal>
        requires { Holds (held self) self }
        ensures { Answers (held self) result }
    {
        if self.count == 0 {
            return Err(Refusal::Unreal);
        }
        Ok(self)
    }
}
