#![tactic(auto)]

// The weather probe, docs/RULES.md, "Refraction": which readings are accepted, the record with one
// reading more, and whole tenths of a float.

ghost use Rattle.std.specs.Prelude.{◌≡◌};
ghost use Rattle.rules.specs.Floats as floats;
ghost use Rattle.rules.specs.Weather as rule;
ghost use Rattle.laws.specs.Tenths.{Small};

use rounding::rnd_by_unit;
use rules::{Reading, Weather};

pub mod kept;

// Whether a pressure in hPa is accepted: a NaN and an infinity fail one of the two tests. Each
// range, this and the next, is the document's own; as `contains` of a range of floats, which
// answers by `partial_cmp`, the proof did not close.
fn is_pressure(x: f32) -> bool
    ensures { result ≡ rule.is_pressure x }
{
    x >= 500.0 && x <= 1100.0
}

// Whether an air temperature in degrees is accepted.
fn is_temperature(x: f32) -> bool
    ensures { result ≡ rule.is_temperature x }
{
    x >= -50.0 && x <= 50.0
}

// Whole tenths of a float, the nearest to its exact value, halves away from zero.
//
// Given: x, finite and below 2^11 in size.
// Returned: Rnd(10 x).
// Rule: docs/RULES.md, "Refraction".
//
// Times 2^30 an f32 is exact as an f64. The part of it below one is dropped: where there is such a
// part, x is too near nought to have a tenth.
pub fn tenths(x: f32) -> i64
    requires { Small x }
    ensures { result ≡ floats.tenths x }
{
    rnd_by_unit(10 * std::num::truncating_f64_to_i64((x as f64) * 1073741824.0))
}

// The record with one more reading, or as it was, where the reading is refused. The error is the
// record as it was: the clauses of `take_from` say which record C gets back.
fn take(w: Weather, r: Reading) -> Result<Weather, Weather>
    ensures { result ≡ rule.taken w r }
{
    match r {
        Reading::Pressure(pressure) if is_pressure(pressure) => Ok(Weather {
            pressure,
            has_pressure: true,
            ..w
        }),
        Reading::Temperature(temperature) if is_temperature(temperature) => Ok(Weather {
            temperature,
            has_temperature: true,
            ..w
        }),
        Reading::Nothing => Ok(w),
        _ => Err(w),
    }
}
