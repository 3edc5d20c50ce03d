#![tactic(auto)]

// The night list but for its walk: the checks before, a star worked as an entry, and how many are
// filled.

ghost use Rattle.std.specs.Prelude.{◌≡◌};
ghost use Rattle.rules.specs.Night.{night_of};
ghost use Rattle.rules.specs.ListReading.{fresh_entry};
ghost use Rattle.rules.specs.NightList as nights;
ghost use Rattle.night_list_checks.specs.Checks.{night_for};

use marks::{is_filled, mark_of, or_nought};
use night::night_of;
use place::place_in;
use rules::{Angles, Entry, Moment, Place, Refusal, Site, Star};
use stars::star_refused;
use steps::ready::ReadyNight;
use units::MOST_RECORDS;

// The night, worked once, of a list of `count` entries, and the checks: 1 to 4, 6, then 11. Moment
// and site stay two, as the rule and C give them.
pub fn night_for(moment: Moment, site: Site, count: usize) -> Result<ReadyNight, Refusal>
    ensures { result ≡ night_for (night_of moment site) count }
{
    let night = night_of(moment, site)?;
    if MOST_RECORDS < count {
        return Err(Refusal::Room);
    }
    Ok(night)
}

// A star of a night as an entry.
//
// Given: night, as `night::night_of` gives it; star, any.
// Returned: the star with its mark and angles; or, where it is refused, with mark 5 and noughts.
// Rule: docs/RULES.md, "Lists": mark 0 or 1 and four angles, or mark 5 and four noughts.
pub fn worked(night: ReadyNight, star: Star) -> Entry
    ensures { result ≡ nights.worked night (fresh_entry star) }
{
    if star_refused(star) {
        return Entry {
            star,
            mark: 5,
            angles: Angles::default(),
        };
    }
    entry_of(star, place_in(night, star))
}

// A star and its place as an entry: nought in the angle that has none.
fn entry_of(star: Star, place: Place) -> Entry
    ensures { result ≡ nights.entry_of star place }
{
    let ra = place.ra;
    let azimuth = place.azimuth;
    Entry {
        star,
        mark: mark_of(ra, azimuth),
        angles: Angles {
            ra: or_nought(ra),
            declination: place.declination,
            azimuth: or_nought(azimuth),
            altitude: place.altitude,
        },
    }
}

// How many entries are filled: marked 0 or 1.
pub fn filled(entries: &[Entry]) -> usize
    ensures { result ≡ nights.marked entries.now }
{
    entries.iter().filter(|entry| is_filled(**entry)).count()
}
