#![tactic(auto)]

// The two instants of a UTC date, docs/RULES.md, "Dates".

ghost use Rattle.std.specs.Prelude.{◌≡◌};
ghost use Rattle.rules.specs.Dates as rule;

use calendar::day_of;
use rules::{Instants, Moment, Refusal};
use time_of_day::{instants_at, ms_of_day, time_refused};
use whole::is_between;

// The two instants of a UTC date with its time of day and UT1-UTC.
//
// Given: any numbers.
// Returned: UT and TT, ms from J2000.0; or refusal 1, 2, 3 or 4.
// Rule: docs/RULES.md, "Dates". UT1-UTC is in UT alone.
pub fn instants(moment: Moment) -> Result<Instants, Refusal>
    ensures { result ≡ rule.instants moment }
{
    let day = day_of(moment.date)?;
    let time = moment.time;
    if time_refused(
        day,
        i64::from(time.hour),
        i64::from(time.minute),
        i64::from(time.second),
        i64::from(time.ms),
    ) {
        return Err(Refusal::Time);
    }
    let ut1_minus_utc = i64::from(moment.ut1_minus_utc);
    if !is_between(-900, 900, ut1_minus_utc) {
        return Err(Refusal::Ut1MinusUtc);
    }
    Ok(instants_at(day, ms_of_day(time), ut1_minus_utc))
}
