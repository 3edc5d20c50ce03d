// The place of a star with its observed altitude.

ghost use Rattle.std.specs.Prelude.{◌≡◌};
ghost use Rattle.rules.specs.Answers.{observed_answer};
ghost use Rattle.rules.specs.Refraction as rule;
ghost use Rattle.stars.specs.Numbers.{star_of};
ghost use Rattle.answers.specs.Given.{moment_of, site_of, weather_of};
ghost use Rattle.answers.specs.Answers.{observed_out};

use answers::observed::TurbelicusObserved;

// The place of a star at a moment and a site, with its observed altitude.
//
// Given: a UTC date and time of day, UT1-UTC in ms; latitude and longitude (positive east) in µas;
// right ascension and declination of J2000 in µas, their motions in µas a year; the weather record:
// any numbers.
// Returned: what `turbelicus_place` answers, and the observed altitude in µas; or refusal 1 to 6,
// then 14.
// Rule: docs/RULES.md, "Refraction".
#[unsafe(no_mangle)]
pub extern "C" fn turbelicus_observed_place(
    year: i32,
    month: i32,
    day: i32,
    hour: i32,
    minute: i32,
    second: i32,
    ms: i32,
    ut1_minus_utc: i32,
    latitude: i64,
    longitude: i64,
    ra: i64,
    declination: i64,
    ra_motion: i32,
    declination_motion: i32,
    pressure: f32,
    temperature: f32,
    has_pressure: i32,
    has_temperature: i32,
) -> TurbelicusObserved
    ensures { result ≡ observed_out (observed_answer (rule.observed_place
        (moment_of year month day hour minute second ms ut1_minus_utc)
        (star_of ra declination ra_motion declination_motion)
        (site_of latitude longitude)
        (weather_of pressure temperature has_pressure has_temperature))) }
{
    module::observed::turbelicus_observed_place(
        year,
        month,
        day,
        hour,
        minute,
        second,
        ms,
        ut1_minus_utc,
        latitude,
        longitude,
        ra,
        declination,
        ra_motion,
        declination_motion,
        pressure,
        temperature,
        has_pressure,
        has_temperature,
    )
}
