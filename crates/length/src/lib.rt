#![tactic(auto)]

// The length of a direction: whether it is accepted, and bringing to length.

ghost use Rattle.std.specs.Prelude.{◌≡◌, not, ◌+◌, ◌<◌, ◌^◌, true, pos, nat_abs, IsTrue, ◌↔◌, All};
ghost use Rattle.rules.specs.Units.{unit, within};
ghost use Rattle.rules.specs.Length.{squares, part_to, root, to_length};
ghost use Rattle.rules.specs.Turning.{direction_refused};
ghost use Rattle.length.specs.Given.{PartFits, HasLength, NotNought};

use rules::Direction;
use units::UNIT;
use whole::is_between;

// No part of an accepted direction is larger: the square of 2^30 + 2 is above 2^60 + 2^32.
const REACH: i64 = 1073741825;

// 2^60 - 2^32 and 2^60 + 2^32: the ends of what is accepted.
const LEAST: i64 = 1152921500311879680;

const MOST: i64 = 1152921508901814272;

// The squares' sum.
fn squares_sum(v: Direction) -> i64
    requires { squares v < 2 ^ 63 }
    ensures { result ≡ pos (squares v) }
{
    v.x * v.x + v.y * v.y + v.z * v.z
}

// L: the whole root of the squares' sum.
fn length_of(v: Direction) -> i64
    requires { squares v < 2 ^ 63 }
    ensures { result ≡ pos (root (squares v)) }
{
    roots::length_root(squares_sum(v))
}

// Each part becomes Rnd(part * 2^30 / L).
fn parts_to(v: Direction, l: i64) -> Direction
    requires { HasLength v l }
    ensures { result ≡ to_length v }
{
    let x = part_to(v.x, l);
    let y = part_to(v.y, l);
    let z = part_to(v.z, l);
    Direction { x, y, z }
}

// Rnd(part * 2^30 / L).
pub fn part_to(part: i64, l: i64) -> i64
    requires { PartFits part l }
    ensures { result ≡ part_to (nat_abs l) part }
{
    rounding::rnd_short_quotient(part * UNIT, l)
}

// Whether each part is in reach.
#[tactic(auto, unfolding(rules::specs::Units::within))]
fn in_reach(parts: &[i64; 3]) -> bool
    ensures { IsTrue result ↔ All (λ part. within (unit + 1) part ≡ true) parts.now }
{
    parts.iter().all(|part| is_between(-REACH, REACH, *part))
}

// Whether v is accepted: its squared length is within 2^32 of 2^60, both ends included.
//
// Given: v, any three numbers.
// Rule: docs/RULES.md, "Numbers, angles, instants"; refusal 7.
//
// The parts are tested first, so that no square passes the word.
pub fn accepted(v: Direction) -> bool
    ensures { result ≡ not (direction_refused v) }
{
    in_reach(&[v.x, v.y, v.z]) && is_between(LEAST, MOST, squares_sum(v))
}

// v brought to the length 2^30, where it is known not to be nought.
//
// Given: v, whose squares' sum is from 1 to 2^63 - 1.
// Returned: Rnd(part * 2^30 / L) of each, L the whole root of the sum.
// Rule: docs/RULES.md, "Turns, readings, place".
pub fn brought(v: Direction) -> Direction
    requires { NotNought v }
    ensures { result ≡ to_length v }
{
    parts_to(v, length_of(v))
}
