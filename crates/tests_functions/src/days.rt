// Day numbers and dates, of the crate `calendar`.

ghost use Rattle.std.specs.Prelude.{◌≡◌};
ghost use Rattle.rules.specs.Answers.{numbered_answer, dated_answer};
ghost use Rattle.tests_functions.specs.Dates.{tests_day, tests_date};
ghost use Rattle.rules.specs.Calendar.{day_of, date_of};
ghost use Rattle.tests_functions.specs.DatesGiven.{in_date};

use answers::numbered;
use rules::{Date, Refusal};

// A Result for C: the refusal's number and nought, or 0 and the day number. One like it stands for
// each such number, since C names it.
#[repr(C)]
#[derive(Clone, Copy)]
pub struct TestsDay {
    pub refused: i64,
    pub day: i64,
}

// A Result for C: the refusal's number and noughts, or 0 and the date.
#[repr(C)]
#[derive(Clone, Copy, Default)]
pub struct TestsDate {
    pub refused: i64,
    pub year: i64,
    pub month: i64,
    pub day: i64,
}

impl From<Result<i64, Refusal>> for TestsDay {
    ghost from_gives = { λ a b. b ≡ tests_day (numbered_answer a) };

    fn from(a: Result<i64, Refusal>) -> TestsDay {
        let (refused, day) = numbered(a, 0);
        TestsDay { refused, day }
    }
}

impl From<Result<Date, Refusal>> for TestsDate {
    ghost from_gives = { λ a b. b ≡ tests_date (dated_answer a) };

    fn from(a: Result<Date, Refusal>) -> TestsDate {
        match a {
            Ok(d) => TestsDate {
                refused: 0,
                year: i64::from(d.year),
                month: i64::from(d.month),
                day: i64::from(d.day),
            },
            Err(r) => TestsDate {
                refused: refusals::number(r),
                ..Default::default()
            },
        }
    }
}

// The day number of a date.
pub fn tests_day_of(year: i32, month: i32, day: i32) -> TestsDay
    ensures { result ≡ tests_day (numbered_answer (day_of (in_date year month day))) }
{
    calendar::day_of(Date { year, month, day }).into()
}

// The date of a day number.
pub fn tests_date_of(day: i64) -> TestsDate
    ensures { result ≡ tests_date (dated_answer (date_of day)) }
{
    calendar::date_of(day).into()
}
