// The observed altitude, by a weather record that C kept.

ghost use Rattle.std.specs.Prelude.{◌≡◌};
ghost use Rattle.rules.specs.Refraction as rule;
ghost use Rattle.laws.specs.Weather.{FieldsInRange};

use crate::lift;
use rules::{Refusal, Weather};
use weather::kept::recorded;

// The altitude and its lift.
fn lifted(h: i64, w: Weather) -> i64
    requires { FieldsInRange w }
    ensures { result ≡ rule.observed w h }
{
    h + lift(h, w)
}

// The observed altitude.
//
// Given: any altitude and any record.
// Returned: the altitude and its lift in µas, within a quarter where the altitude is; or refusal
// 14, where a reading that has come is not accepted.
// Rule: docs/RULES.md, "Refraction".
pub fn observed_altitude(h: i64, w: Weather) -> Result<i64, Refusal>
    ensures { result ≡ rule.observed_altitude w h }
{
    let kept = recorded(w).map_err(|_| Refusal::Reading)?;
    Ok(lifted(h, kept))
}
