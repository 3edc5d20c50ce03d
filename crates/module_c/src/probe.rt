// The weather record, which C keeps, and the observed altitude by it.

ghost use Rattle.std.specs.Prelude.{◌≡◌};
ghost use Rattle.rules.specs.Answers.{angle_answer};
ghost use Rattle.rules.specs.Refraction as rule;
ghost use Rattle.answers.specs.Given.{weather_of, taken_by_kind};
ghost use Rattle.answers.specs.Answers.{weathered_out, altitude_out};

use answers::observed::TurbelicusAltitude;
use answers::probe::TurbelicusWeathered;

// The weather record with one more reading of the probe.
//
// Given: the record, any numbers; kind, 0 for nothing, 1 for a pressure in hPa, 2 for an air
// temperature in degrees; the reading.
// Returned: the record with the reading; or refusal 14 and the record as it was, where the reading,
// or one that has come before, is not accepted, or the kind is another.
// Rule: docs/RULES.md, "Refraction".
//
// The kind is a number and a flag an i32, as C gives them.
#[unsafe(no_mangle)]
pub extern "C" fn turbelicus_weather(
    pressure: f32,
    temperature: f32,
    has_pressure: i32,
    has_temperature: i32,
    kind: i32,
    reading: f32,
) -> TurbelicusWeathered
    ensures { result ≡ weathered_out (taken_by_kind
        (weather_of pressure temperature has_pressure has_temperature) kind reading) }
{
    module::probe::turbelicus_weather(
        pressure,
        temperature,
        has_pressure,
        has_temperature,
        kind,
        reading,
    )
}

// The observed altitude of an altitude.
//
// Given: an altitude in µas, as the place gives it; the weather record: any numbers.
// Returned: the altitude and its lift in µas; or refusal 14, where a reading that has come is not
// accepted.
// Rule: docs/RULES.md, "Refraction".
#[unsafe(no_mangle)]
pub extern "C" fn turbelicus_observed_altitude(
    altitude: i64,
    pressure: f32,
    temperature: f32,
    has_pressure: i32,
    has_temperature: i32,
) -> TurbelicusAltitude
    ensures { result ≡ altitude_out (angle_answer (rule.observed_altitude
        (weather_of pressure temperature has_pressure has_temperature) altitude)) }
{
    module::probe::turbelicus_observed_altitude(
        altitude,
        pressure,
        temperature,
        has_pressure,
        has_temperature,
    )
}
