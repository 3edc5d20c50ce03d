// The weather record that C keeps: it may hand back anything, so each call looks at it again.

ghost use Rattle.std.specs.Prelude.{◌≡◌};
ghost use Rattle.rules.specs.Weather as rule;

use crate::{is_pressure, is_temperature, take};
use rules::{Reading, Weather};

// The record before any reading: nothing has come, and the fields are the formula's own weather.
fn no_weather() -> Weather
    ensures { result ≡ rule.no_weather }
{
    Weather {
        pressure: 1010.0,
        temperature: 10.0,
        has_pressure: false,
        has_temperature: false,
    }
}

// A record with each field that has not come set to what it is before any reading.
fn mended(w: Weather) -> Weather
    ensures { result ≡ rule.mended w }
{
    let start = no_weather();
    Weather {
        pressure: if w.has_pressure {
            w.pressure
        } else {
            start.pressure
        },
        temperature: if w.has_temperature {
            w.temperature
        } else {
            start.temperature
        },
        ..w
    }
}

// A record that C kept.
//
// Given: any record.
// Returned: the record with its fields in range; or as it was, where one that has come is not
// accepted.
// Rule: docs/RULES.md, "Refraction", the record that C keeps.
//
// The error is the record as it was, and no refusal: the clause says which record C gets back.
pub fn recorded(w: Weather) -> Result<Weather, Weather>
    ensures { result ≡ rule.recorded w }
{
    let m = mended(w);
    if is_pressure(m.pressure) && is_temperature(m.temperature) {
        Ok(m)
    } else {
        Err(w)
    }
}

// A record that C kept, with one more reading.
//
// Given: any record and any reading.
// Returned: the record with the reading and its fields in range; or as it was, where either is
// refused.
// Rule: docs/RULES.md, "Refraction", the record that C keeps.
//
// The error is the record as it was, and no refusal: the clause says which record C gets back.
pub fn take_from(w: Weather, r: Reading) -> Result<Weather, Weather>
    ensures { result ≡ rule.taken_from w r }
{
    let v = recorded(w)?;
    take(v, r).map_err(|_| w)
}
