#![tactic(auto)]

// The place of a star, docs/RULES.md, "Turns, readings, place": the six steps with their refusals.

ghost use Rattle.std.specs.Prelude.{◌≡◌, false};
ghost use Rattle.rules.specs.Stars.{star_refused};
ghost use Rattle.rules.specs.Place as rule;

use rules::{Moment, Place, Refusal, Site, Star};
use steps::ready::ReadyNight;

// The place of a star at a moment and a site.
//
// Given: moment (UTC, UT1-UTC in ms), star, site: any.
// Returned: apparent right ascension and declination, azimuth and altitude in µas, of which right
// ascension and azimuth may have no angle; refusals 1 to 4, 5, 6.
// Rule: docs/RULES.md, "Turns, readings, place", steps 1 to 6.
//
// Moment and site stay two, as the rule and C give them.
pub fn place(moment: Moment, star: Star, site: Site) -> Result<Place, Refusal>
    ensures { result ≡ rule.place moment star site }
{
    let at = instants::instants(moment)?;
    if stars::star_refused(star) {
        return Err(Refusal::Star);
    }
    if stars::site_refused(site) {
        return Err(Refusal::Site);
    }
    Ok(place_in(night::night_at(at, site), star))
}

// The place of a star in a night.
//
// Given: n, as `night_of` gives it; s, not refused.
// Returned: apparent right ascension and declination, azimuth and altitude in µas, of which right
// ascension and azimuth may have no angle.
// Rule: docs/RULES.md, "Turns, readings, place", steps 1 to 6.
pub fn place_in(n: ReadyNight, s: Star) -> Place
    requires { star_refused s ≡ false }
    ensures { result ≡ rule.place_in n s }
{
    let v = steps::apparent(n, s);
    steps::readings(v, steps::overhead(n, v))
}
