#![tactic(auto)]

// Which stars and sites are accepted.

ghost use Rattle.std.specs.Prelude.{◌≡◌};
ghost use Rattle.rules.specs.Stars.{star_refused};
ghost use Rattle.rules.specs.Night.{site_refused};
ghost use Rattle.stars.specs.Numbers.{star_of};

use rules::{Site, Star};
use units::{HALF, QUARTER};

// Refusal 5: the ranges of a star.
//
// Given: star, any; angles in µas, motions in µas a year.
// Returned: whether it is refused.
// Rule: docs/RULES.md, "Refusal numbers", 5.
pub fn star_refused(star: Star) -> bool
    ensures { result ≡ star_refused star }
{
    numbers_refused(
        star.ra,
        star.declination,
        i64::from(star.ra_motion),
        i64::from(star.declination_motion),
    )
}

// The same of a star's four numbers, none of which need fit a `Star`.
//
// Given: right ascension and declination in µas, their motions in µas a year, any.
// Returned: whether the star is refused.
// Rule: docs/RULES.md, "Refusal numbers", 5.
pub fn numbers_refused(ra: i64, declination: i64, ra_motion: i64, declination_motion: i64) -> bool
    ensures { result ≡ star_refused (star_of ra declination ra_motion declination_motion) }
{
    if !whole::is_between(0, 1295999999999, ra) {
        return true;
    }
    if !whole::is_between(-324000000000, 324000000000, declination) {
        return true;
    }
    if !whole::is_between(-100000000, 100000000, ra_motion) {
        return true;
    }
    !whole::is_between(-100000000, 100000000, declination_motion)
}

// Refusal 6: the ranges of a site.
//
// Given: site, any; latitude and longitude in µas.
// Returned: whether it is refused.
// Rule: docs/RULES.md, "Refusal numbers", 6.
pub fn site_refused(site: Site) -> bool
    ensures { result ≡ site_refused site }
{
    if !whole::is_between(-QUARTER, QUARTER, site.latitude) {
        return true;
    }
    !whole::is_between(-HALF, HALF, site.longitude)
}
