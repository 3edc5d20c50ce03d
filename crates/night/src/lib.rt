#![tactic(auto)]

// All of a place that date and site alone decide.

ghost use Rattle.std.specs.Prelude.{◌≡◌};
ghost use Rattle.rules.specs.Night as rule;
ghost use Rattle.night.specs.Given.{SiteFits};

use night_pairs::{aberration, latitude_pair, opposite_of, sidereal_pair};
use polynomials::range::InRange;
use rules::{Instants, Moment, Night, Refusal, Site};
use steps::ready::ReadyNight;

// All that a moment and a site decide, for any number of stars.
//
// Given: moment (UTC, UT1-UTC in ms), site: any.
// Returned: the night; refusals 1 to 4, 6.
// Rule: docs/RULES.md, "Turns, readings, place", steps 3 to 6.
//
// Moment and site stay two, as the rule and C give them.
pub fn night_of(moment: Moment, site: Site) -> Result<ReadyNight, Refusal>
    ensures { result ≡ rule.night_of moment site }
{
    let at = instants::instants(moment)?;
    if stars::site_refused(site) {
        return Err(Refusal::Site);
    }
    Ok(night_at(at, site))
}

// The night of a date and a site that are not refused.
//
// Given: the instants of one date; site, not refused.
// Returned: the pairs of the turns of steps 3, 5 and 6, and what step 4 adds.
// Rule: docs/RULES.md, "Turns, readings, place", steps 3 to 6.
pub fn night_at(at: Instants, site: Site) -> ReadyNight
    requires { SiteFits at.ut at.tt site }
    ensures { result ≡ rule.night at.ut at.tt site }
{
    let ut = InRange { at: at.ut };
    let tt = InRange { at: at.tt };
    let p = precession::precession_of(tt);
    let n = nutation::nutation_of(tt);
    let epsilon = precession::obliquity_of(tt);
    let mean = circle::pair(epsilon);
    let sun = circle::pair(sun::sun_longitude_of(tt));
    let perihelion = circle::pair(sun::perihelion::perihelion_of(tt));
    ReadyNight {
        night: Night {
            tt: at.tt,
            zeta: circle::pair(p.zeta),
            minus_theta: opposite_of(circle::pair(p.theta)),
            z: circle::pair(p.z),
            aberration: aberration(sun, perihelion, mean),
            minus_epsilon: opposite_of(mean),
            delta_psi: circle::pair(n.longitude),
            true_epsilon: circle::pair(epsilon + n.obliquity),
            minus_sidereal: sidereal_pair(ut, n.longitude, mean.cosine, site.longitude),
            latitude_less_quarter: latitude_pair(site.latitude),
        },
    }
}
