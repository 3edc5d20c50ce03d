#![tactic(auto)]

// The time of day: whether it exists, its ms, and UT and TT at it.

ghost use Rattle.std.specs.Prelude.{◌≡◌, ◌≤◌, nat_abs};
ghost use Rattle.rules.specs.Dates as rule;
ghost use Rattle.laws.specs.Instants.{RealTime, InstantParts};
ghost use Rattle.laws.specs.OfNumbers.{time_of_parts, utc_at, instants_at};

use crate::added_seconds::{last_second, tai_minus_utc};
use rules::{Instants, Time, Tt, Ut};
use whole::is_between;

mod added_seconds;
pub mod days;

// Whether there is no such time on a day. Any five numbers are told from a time, so they are no
// `Time`, whose parts are narrower.
pub fn time_refused(day: i64, hour: i64, minute: i64, second: i64, ms: i64) -> bool
    requires { nat_abs day ≤ 36524 }
    ensures { result ≡ rule.time_refused day (time_of_parts hour minute second ms) }
{
    !is_between(0, 23, hour)
        || !is_between(0, 59, minute)
        || !is_between(0, last_second(day, hour, minute), second)
        || !is_between(0, 999, ms)
}

// The ms of day.
pub fn ms_of_day(time: Time) -> i64
    requires { RealTime time }
    ensures { result ≡ rule.ms_of_day time }
{
    let minutes = i64::from(time.hour) * 60 + i64::from(time.minute);
    (minutes * 60 + i64::from(time.second)) * 1000 + i64::from(time.ms)
}

// What UT and TT begin with: the ms from noon of day 0.
fn utc_ms(day: i64, ms: i64) -> i64
    requires { (nat_abs day ≤ 36524) × (nat_abs ms ≤ 86400999) }
    ensures { result ≡ utc_at day ms }
{
    day * 86_400_000 + ms - 43_200_000
}

// UT and TT on a day, at a ms of day. TT is 32.184 s after TAI (source 000, section 2.1).
pub fn instants_at(day: i64, ms: i64, ut1_minus_utc: i64) -> Instants
    requires { InstantParts day ms ut1_minus_utc }
    ensures { result ≡ instants_at day ms ut1_minus_utc }
{
    let utc = utc_ms(day, ms);
    let tt = utc + (32_184 + 1000 * tai_minus_utc(day));
    Instants {
        ut: Ut(utc + ut1_minus_utc),
        tt: Tt(tt),
    }
}
