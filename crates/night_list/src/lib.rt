#![tactic(auto)]

// The night list: entries worked where they stand.

ghost use Rattle.std.specs.Prelude.{◌≡◌};
ghost use Rattle.rules.specs.NightList.{night_list, entries_after_night};

use night_list_checks::{filled, night_for, worked};
use rules::{Entry, Moment, Refusal, Site};

// A night list, worked where it stands.
//
// Given: moment and site, any; entries, any number, of which mark and angles are not looked at.
// Returned: how many entries are marked 0 or 1. Each entry keeps its star and has mark 0 and four
// angles; or mark 1, with nought for right ascension or azimuth where it has none; or mark 5 and
// four noughts where its star is refused. Or refusal 1 to 4, 6 or 11, and all entries stay.
// Rule: docs/RULES.md, "Lists".
//
// The night is worked once.
//
// Moment and site stay two, as the rule and C give them.
pub fn night_list(moment: Moment, site: Site, entries: &mut [Entry]) -> Result<usize, Refusal>
    ensures { (result ≡ night_list moment site entries.old)
        × (entries.new ≡ entries_after_night moment site entries.old) }
{
    let night = night_for(moment, site, entries.len())?;
    for entry in entries.iter_mut() {
        *entry = worked(night, entry.star);
    }
    Ok(filled(entries))
}
