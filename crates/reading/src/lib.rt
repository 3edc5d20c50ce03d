#![tactic(auto)]

// An angle read from two numbers, and a height from three: docs/RULES.md, "Turns, readings, place".
// Angles are in µas, all else in parts of 2^30.

ghost use Rattle.std.specs.Prelude.{◌≡◌};
ghost use Rattle.rules.specs.Length.{squares};
ghost use Rattle.rules.specs.Turning.{Accepted};
ghost use Rattle.rules.specs.Reading as readings;
ghost use Rattle.rules.specs.Heights as heights;

use rules::Direction;

mod octants;

// The angle of (h, v), from the first axis towards the second.
//
// Given: h, v, any.
// Returned: the angle in µas, from 0 to C - 1; or that there is none, for (0, 0).
// Rule: docs/RULES.md, "Turns, readings, place".
pub fn reading(h: i32, v: i32) -> Option<i64>
    ensures { result ≡ readings.reading h v }
{
    let first = i64::from(h);
    let second = i64::from(v);
    if first == 0 && second == 0 {
        return None;
    }
    Some(octants::angle_of(first, second))
}

// The height of a direction above the plane of its first two axes: a declination or an altitude.
// That it is accepted stays a clause: `laws/Turning.turn_by_accepted` says it of what a turn
// answers, and a type would be made and unmade at every turn.
//
// Given: v, accepted.
// Returned: the angle in µas, within a quarter of 0.
// Rule: docs/RULES.md, "Turns, readings, place".
pub fn height(v: Direction) -> i64
    requires { Accepted (squares v) }
    ensures { result ≡ heights.height v }
{
    octants::height_of(v)
}
