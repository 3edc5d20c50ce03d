// What C hands over in plain numbers, as the rules' data.

ghost use Rattle.std.specs.Prelude.{◌≡◌};
ghost use Rattle.answers.specs.Given.{moment_of, weather_of};

use rules::{Date, Moment, Time, Weather};

// A UTC date and time of day, and UT1-UTC in ms.
pub fn moment_of(
    year: i32,
    month: i32,
    day: i32,
    hour: i32,
    minute: i32,
    second: i32,
    ms: i32,
    ut1_minus_utc: i32,
) -> Moment
    ensures { result ≡ moment_of year month day hour minute second ms ut1_minus_utc }
{
    Moment {
        date: Date { year, month, day },
        time: Time {
            hour,
            minute,
            second,
            ms,
        },
        ut1_minus_utc,
    }
}

// The weather record; a flag of any number but nought is set.
pub fn weather_of(
    pressure: f32,
    temperature: f32,
    has_pressure: i32,
    has_temperature: i32,
) -> Weather
    ensures { result ≡ weather_of pressure temperature has_pressure has_temperature }
{
    Weather {
        pressure,
        temperature,
        has_pressure: has_pressure != 0,
        has_temperature: has_temperature != 0,
    }
}
