// Day numbers and dates, of the crate `calendar`.

ghost use Rattle.std.specs.Prelude.{◌≡◌};
ghost use Rattle.rules.specs.Answers.{numbered_answer, dated_answer};
ghost use Rattle.tests_functions.specs.Dates.{tests_day, tests_date};
ghost use Rattle.rules.specs.Calendar.{day_of, date_of};
ghost use Rattle.tests_functions.specs.DatesGiven.{in_date};

use tests_functions::days::{TestsDate, TestsDay};

// The day number of a date.
#[unsafe(no_mangle)]
pub extern "C" fn tests_day_of(year: i32, month: i32, day: i32) -> TestsDay
    ensures { result ≡ tests_day (numbered_answer (day_of (in_date year month day))) }
{
    tests_functions::days::tests_day_of(year, month, day)
}

// The date of a day number.
#[unsafe(no_mangle)]
pub extern "C" fn tests_date_of(day: i64) -> TestsDate
    ensures { result ≡ tests_date (dated_answer (date_of day)) }
{
    tests_functions::days::tests_date_of(day)
}
