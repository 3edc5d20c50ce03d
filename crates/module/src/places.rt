// The place of a star.

ghost use Rattle.std.specs.Prelude.{◌≡◌};
ghost use Rattle.rules.specs.Answers.{placed_answer};
ghost use Rattle.rules.specs.Place as rule;
ghost use Rattle.stars.specs.Numbers.{star_of};
ghost use Rattle.answers.specs.Given.{moment_of, site_of};
ghost use Rattle.answers.specs.Answers.{placed_out};

use answers::given::moment_of;
use answers::places::TurbelicusPlaced;
use rules::{Site, Star};

// The place of a star at a moment and a site.
//
// Given: a UTC date and time of day, UT1-UTC in ms; latitude and longitude (positive east) in µas;
// right ascension and declination of J2000 in µas, their motions in µas a year: any numbers.
// Returned: apparent right ascension and declination, azimuth (north through east) and altitude in
// µas, each of right ascension and azimuth with a flag: 0 where there is none; or refusal 1 to 6.
// Rule: docs/RULES.md, "Turns, readings, place".
pub fn turbelicus_place(
    year: i32,
    month: i32,
    day: i32,
    hour: i32,
    minute: i32,
    second: i32,
    ms: i32,
    ut1_minus_utc: i32,
    latitude: i64,
    longitude: i64,
    ra: i64,
    declination: i64,
    ra_motion: i32,
    declination_motion: i32,
) -> TurbelicusPlaced
    ensures { result ≡ placed_out (placed_answer (rule.place
        (moment_of year month day hour minute second ms ut1_minus_utc)
        (star_of ra declination ra_motion declination_motion)
        (site_of latitude longitude))) }
{
    let moment = moment_of(year, month, day, hour, minute, second, ms, ut1_minus_utc);
    let star = Star {
        ra,
        declination,
        ra_motion,
        declination_motion,
    };
    let site = Site {
        latitude,
        longitude,
    };
    place::place(moment, star, site).into()
}
