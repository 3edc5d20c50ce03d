// The date that has a number of days of the span before it.

ghost use Rattle.std.specs.Prelude.{◌≡◌, nat_abs};
ghost use Rattle.rules.specs.Calendar as rule;
ghost use Rattle.laws.specs.Ranges.{InRange};
ghost use Rattle.laws.specs.FindingDates.{DaysOfYear, date_in};

use crate::years::{months_of, years_before};
use rules::Date;

// The date in a year that has a number of days of the year before it.
fn date_in(year: i64, days: i64) -> Date
    requires { DaysOfYear year days }
    ensures { result ≡ date_in (nat_abs year) (nat_abs days) }
{
    let mut rest = days;
    for (before, length) in months_of(year).iter().enumerate() {
        let length = i64::from(*length);
        if rest < length {
            return Date {
                year: year as i32,
                month: 1 + before as i32,
                day: 1 + rest as i32,
            };
        }
        rest -= length;
    }
    unreachable!()
}

// The date that has a number of days of the span before it: four years are 1461 days, a leap year
// first.
pub fn date_at(count: i64) -> Date
    requires { InRange 0 46751 count }
    ensures { result ≡ rule.date_of_count (nat_abs count) }
{
    let year = 1972 + 4 * count / 1461;
    date_in(year, count - years_before(year))
}
