#![tactic(auto)]

// Turns of a direction about the three axes.

ghost use Rattle.std.specs.Prelude.{◌≡◌, not};
ghost use Rattle.rules.specs.Turning.{turn_refused, turn_by, turned};
ghost use Rattle.axes.specs.Given.{TurnFits};

use rules::{Direction, Pair, Refusal};
use units::CIRCLE;

// v turned about an axis, with the angle's pair at hand, and brought to length.
//
// Given: v and p, accepted; axis 1 or 2, and any other number for 3.
// Returned: an accepted direction.
// Rule: docs/RULES.md, "Turns, readings, place".
pub fn turn_by(v: Direction, axis: i64, p: Pair) -> Direction
    requires { TurnFits v p }
    ensures { result ≡ turn_by axis p v }
{
    length::brought(axes::turn_about(v, axis, p))
}

// v turned about an axis by an angle, and brought to length.
//
// Given: v, axis and angle (in µas), any.
// Returned: an accepted direction; refused 7 where v is not accepted, 8 where axis or angle is not.
// Rule: docs/RULES.md, "Turns, readings, place".
//
// Refusal 13 never comes: the length of what is turned is within 5 of 2^30. The axis is a number,
// as it comes from C: one that is none of the three is refused 8 here, by its number.
pub fn turn(v: Direction, axis: i64, angle: i64) -> Result<Direction, Refusal>
    ensures { result ≡ turned axis angle v }
{
    if !length::accepted(v) {
        return Err(Refusal::Direction);
    }
    if !is_turn(axis, angle) {
        return Err(Refusal::Turn);
    }
    Ok(turn_by(v, axis, circle::pair(angle)))
}

// Whether axis is 1 to 3, and angle strictly between -C and C. This is the test of C's number, so
// it takes no type of three axes.
fn is_turn(axis: i64, angle: i64) -> bool
    ensures { result ≡ not (turn_refused axis angle) }
{
    if !whole::is_between(1, 3, axis) {
        return false;
    }
    -CIRCLE < angle && angle < CIRCLE
}
