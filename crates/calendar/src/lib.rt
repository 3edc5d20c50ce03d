#![tactic(auto)]

// The calendar of docs/RULES.md, "Dates": day numbers and dates.

ghost use Rattle.std.specs.Prelude.{◌≡◌};
ghost use Rattle.rules.specs.Calendar.{day_of, date_of};

use crate::counts::date_at;
use crate::dates::{day_number, day_refused};
use rules::{Date, Refusal};
use whole::is_between;

pub mod counts;
pub mod dates;
mod years;

// The day number of a date.
//
// Given: any numbers.
// Returned: -10227 to 36524, 0 for 2000-01-01; or refusal 1 or 2.
// Rule: docs/RULES.md, "Dates".
pub fn day_of(date: Date) -> Result<i64, Refusal>
    ensures { result ≡ day_of date }
{
    let year = i64::from(date.year);
    let month = i64::from(date.month);
    let day = i64::from(date.day);
    if !is_between(1972, 2099, year) {
        return Err(Refusal::Year);
    }
    if day_refused(year, month, day) {
        return Err(Refusal::Day);
    }
    Ok(day_number(date))
}

// The date of a day number.
//
// Given: any number.
// Returned: the date; or refusal 1.
// Rule: docs/RULES.md, "Dates".
pub fn date_of(n: i64) -> Result<Date, Refusal>
    ensures { result ≡ date_of n }
{
    if !is_between(-10227, 36524, n) {
        return Err(Refusal::Year);
    }
    Ok(date_at(n + 10227))
}
