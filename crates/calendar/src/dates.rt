// Dates of the span, and the days of the span before them.

ghost use Rattle.std.specs.Prelude.{◌≡◌};
ghost use Rattle.rules.specs.Calendar as rule;
ghost use Rattle.laws.specs.DayNumbers.{RealDate};
ghost use Rattle.laws.specs.OfNumbers.{date_of_parts};

use crate::years::{month_days, months_before, years_before};
use rules::Date;
use whole::is_between;

// Whether there is no such month or day. Any three numbers are told from a date, so they are no
// `Date`, whose parts are narrower.
pub fn day_refused(year: i64, month: i64, day: i64) -> bool
    ensures { result ≡ rule.day_refused (date_of_parts year month day) }
{
    !is_between(1, 12, month) || !is_between(1, month_days(year, month), day)
}

// The day number of a date that exists.
pub fn day_number(date: Date) -> i64
    requires { RealDate date }
    ensures { result ≡ rule.day_number date }
{
    let year = i64::from(date.year);
    let days = i64::from(date.day) - 1;
    let months = months_before(year, date.month as usize - 1);
    years_before(year) + months + days - 10227
}
