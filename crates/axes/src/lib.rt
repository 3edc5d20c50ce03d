#![tactic(auto)]

// A turn about each axis, not yet brought to length.

ghost use Rattle.std.specs.Prelude.{◌≡◌};
ghost use Rattle.rules.specs.Turning.{turn3, exchanged, turn_about};
ghost use Rattle.axes.specs.Given.{TurnFits};

use rules::{Direction, Pair};

// The cyclic exchange takes the axis to the third place, and back again after the turn.
//
// The axis is a number: this and `turn_by` take every number, those other than 1 and 2 for 3, and a
// type of three axes would ask more of callers.
pub fn turn_about(v: Direction, axis: i64, p: Pair) -> Direction
    requires { TurnFits v p }
    ensures { result ≡ turn_about axis p v }
{
    match axis {
        1 => exchange(exchange(turn_3(exchange(v), p))),
        2 => exchange(turn_3(exchange(exchange(v)), p)),
        _ => turn_3(v, p),
    }
}

// x goes towards y, and z stays. `TurnFits` stays a clause: a type of a direction with a pair would
// be no plainer, as the two come from different calls and go together in a turn alone.
fn turn_3(v: Direction, p: Pair) -> Direction
    requires { TurnFits v p }
    ensures { result ≡ turn3 p v }
{
    Direction {
        x: rounding::rnd_by_unit(p.cosine * v.x - p.sine * v.y),
        y: rounding::rnd_by_unit(p.sine * v.x + p.cosine * v.y),
        z: v.z,
    }
}

// Each axis is named by the next.
#[tactic(auto, unfolding(rules::specs::Turning::exchanged))]
fn exchange(v: Direction) -> Direction
    ensures { result ≡ exchanged v }
{
    Direction {
        x: v.y,
        y: v.z,
        z: v.x,
    }
}
