// The time of day at a ms of day.

ghost use Rattle.std.specs.Prelude.{◌≡◌, pos, nat_abs};
ghost use Rattle.rules.specs.Utc as rule;
ghost use Rattle.laws.specs.Ranges.{InRange};

use rules::Time;

// The minutes of the day before a ms of day. The day has 1,440, and second 60 is of the last.
fn minutes_of_day(ms: i64) -> i64
    requires { InRange 0 86400999 ms }
    ensures { result ≡ pos (rule.minutes_of_day (nat_abs ms)) }
{
    (ms / 60_000).min(1439)
}

// The time at a ms of day.
pub fn time_of_ms(ms: i64) -> Time
    requires { InRange 0 86400999 ms }
    ensures { result ≡ rule.time_of_ms (nat_abs ms) }
{
    let minutes = minutes_of_day(ms);
    Time {
        hour: (minutes / 60) as i32,
        minute: (minutes % 60) as i32,
        second: ((ms - minutes * 60_000) / 1000) as i32,
        ms: (ms % 1000) as i32,
    }
}
