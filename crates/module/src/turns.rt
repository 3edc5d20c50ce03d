// A turn, and the reading of an angle.

ghost use Rattle.std.specs.Prelude.{◌≡◌};
ghost use Rattle.rules.specs.Answers.{turned_answer, read_answer};
ghost use Rattle.rules.specs.Turning as rule;
ghost use Rattle.rules.specs.Reading.{reading};
ghost use Rattle.answers.specs.Given.{direction_of};
ghost use Rattle.answers.specs.Answers.{turned_out, read_out};

use answers::turns::{TurbelicusRead, TurbelicusTurned};
use rules::Direction;

// A direction turned about an axis by an angle, and brought to length.
//
// Given: x, y, z in parts of 2^30; axis, 1 to 3; angle in µas: any numbers.
// Returned: the direction in parts of 2^30; or refusal 7 or 8.
// Rule: docs/RULES.md, "Turns, readings, place".
//
// The axis is a number, as C gives it: another than 1 to 3 is refusal 8.
pub fn turbelicus_turn(x: i64, y: i64, z: i64, axis: i64, angle: i64) -> TurbelicusTurned
    ensures { result ≡ turned_out (turned_answer (rule.turned axis angle (direction_of x y z))) }
{
    turning::turn(Direction { x, y, z }, axis, angle).into()
}

// The angle of (h, v).
//
// Given: any two numbers.
// Returned: 1 and µas from h towards v, 0 to C - 1; noughts for (0, 0), which has no angle.
// Rule: docs/RULES.md, "Turns, readings, place".
pub fn turbelicus_reading(h: i32, v: i32) -> TurbelicusRead
    ensures { result ≡ read_out (read_answer (reading h v)) }
{
    reading::reading(h, v).into()
}
