// The added seconds: TAI-UTC on a day, and the last second of a minute.

ghost use Rattle.std.specs.Prelude.{◌≡◌, ◌≤◌, pos, nat_abs};
ghost use Rattle.rules.specs.Dates as rule;
ghost use Rattle.laws.specs.OfNumbers.{time_of_parts};

// The day numbers of the steps, 1 July and then 1 January, in the order of `steps` of the rules.
// A step that is announced (IERS, Bulletin C) is added at its place, here and wherever
// docs/RULES.md, "Dates", says that the steps stand.
const STEPS: [i64; 27] = [
    -10045, // 1972-07-01
    -6758, // 1981-07-01
    -6393, // 1982-07-01
    -6028, // 1983-07-01
    -5297, // 1985-07-01
    -2740, // 1992-07-01
    -2375, // 1993-07-01
    -2010, // 1994-07-01
    -914, // 1997-07-01
    4565, // 2012-07-01
    5660, // 2015-07-01
    -9861, // 1973-01-01
    -9496, // 1974-01-01
    -9131, // 1975-01-01
    -8766, // 1976-01-01
    -8400, // 1977-01-01
    -8035, // 1978-01-01
    -7670, // 1979-01-01
    -7305, // 1980-01-01
    -4383, // 1988-01-01
    -3652, // 1990-01-01
    -3287, // 1991-01-01
    -1461, // 1996-01-01
    -365, // 1999-01-01
    2192, // 2006-01-01
    3288, // 2009-01-01
    6210, // 2017-01-01
];

// TAI-UTC in s on a day. A `for`: a `count` of a `filter` is no plainer, and the compiler works
// this one several steps at once.
pub fn tai_minus_utc(day: i64) -> i64
    ensures { result ≡ pos (rule.tai_minus_utc day) }
{
    let mut seconds = 10;
    for step in &STEPS {
        if *step <= day {
            seconds += 1;
        }
    }
    seconds
}

// Whether a day is the day before a step. That it is a day of the span stays a clause, here and in
// what calls it: `calendar::day_of` answers a number, and a type would be made of it and taken
// apart again in `instants`, its one caller.
fn before_step(day: i64) -> bool
    requires { nat_abs day ≤ 36524 }
    ensures { result ≡ rule.before_step day }
{
    tai_minus_utc(day) != tai_minus_utc(day + 1)
}

// The last second of a minute: 60 only at 23:59 of the day before a step.
#[tactic(auto, using(crate::proofs::Equal::equal, crate::proofs::Equal::not_equal), unfolding(rules::specs::Dates::last_second))]
pub fn last_second(day: i64, hour: i64, minute: i64) -> i64
    requires { nat_abs day ≤ 36524 }
    ensures { result ≡ pos (rule.last_second day (time_of_parts hour minute (pos 0) (pos 0))) }
{
    if hour == 23 && minute == 59 && before_step(day) {
        60
    } else {
        59
    }
}
