#![tactic(auto)]

// An angle that may be none: its flag, nought in its place, the mark of an entry that lacks one.
// `has_angle` and `or_nought` are the library's methods under the names that docs/PROMISES.md has.

ghost use Rattle.std.specs.Prelude.{◌≡◌};
ghost use Rattle.rules.specs.Answers as rule;
ghost use Rattle.rules.specs.NightList.{mark_of, filled};

use rules::Entry;

// Whether there is an angle.
pub fn has_angle(a: Option<i64>) -> bool
    ensures { result ≡ rule.has_angle a }
{
    a.is_some()
}

// The angle, or nought where there is none.
pub fn or_nought(a: Option<i64>) -> i64
    ensures { result ≡ rule.or_nought a }
{
    a.unwrap_or(0)
}

// The mark of a place: 0, or 1 where one of its two readings or both have no angle.
pub fn mark_of(ra: Option<i64>, azimuth: Option<i64>) -> u8
    ensures { result ≡ mark_of ra azimuth }
{
    if has_angle(ra) && has_angle(azimuth) {
        0
    } else {
        1
    }
}

// Whether an entry has a place: mark 0 or 1.
#[tactic(auto, unfolding(rules::specs::NightList::filled))]
pub fn is_filled(entry: Entry) -> bool
    ensures { result ≡ filled entry }
{
    matches!(entry.mark, 0 | 1)
}
