// Years and months: their lengths, and the days of the span before them.

ghost use Rattle.std.specs.Prelude.{◌≡◌, ◌≤◌, ◌-◌, pos, nat_abs, cond, get_or, length, sum, take};
ghost use Rattle.rules.specs.Years as rule;
ghost use Rattle.laws.specs.Ranges.{InRange};

// Days per month, January to December: common years, leap years.
const DAYS: [[u8; 12]; 2] = [
    [31, 28, 31, 30, 31, 30, 31, 31, 30, 31, 30, 31],
    [31, 29, 31, 30, 31, 30, 31, 31, 30, 31, 30, 31],
];

// Whether a year is a leap year.
fn is_leap(year: i64) -> bool
    ensures { cond result 1 0 ≡ rule.leap (nat_abs year) }
{
    year % 4 == 0 && (year % 100 != 0 || year % 400 == 0)
}

// The days of each month of a year. Whether it is a leap year is the index, as docs/DECISIONS.md
// has it under "Forms that document 01 names".
pub fn months_of(year: i64) -> &'static [u8; 12]
    ensures { result.now ≡ rule.months (nat_abs year) }
{
    &DAYS[usize::from(is_leap(year))]
}

// The days of a month of a year; months are counted from 1.
pub fn month_days(year: i64, month: i64) -> i64
    requires { InRange 1 12 month }
    ensures { result ≡ pos (get_or (rule.months (nat_abs year)) (nat_abs month - 1) 0) }
{
    i64::from(months_of(year)[month as usize - 1])
}

// The days of some months.
fn sum_of(months: &[u8]) -> i64
    requires { sum months.now ≤ 366 }
    ensures { result ≡ pos (sum months.now) }
{
    i64::from(months.iter().map(|days| u32::from(*days)).sum::<u32>())
}

// The days of the first months of a year.
pub fn months_before(year: i64, months: usize) -> i64
    requires { months ≤ 12 }
    ensures { result ≡ pos (rule.sum (take months (rule.months (nat_abs year)))) }
{
    sum_of(&months_of(year)[..months])
}

// The days of the span before a year: one leap year in four, and 2000 is one.
pub fn years_before(year: i64) -> i64
    requires { InRange 1972 2099 year }
    ensures { result ≡ pos (rule.sum (take (nat_abs year - 1972) rule.years)) }
{
    365 * (year - 1972) + (year - 1969) / 4
}
