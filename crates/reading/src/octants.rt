// The angle of a reading: in the first octant, in the first quarter, by the signs, and as a height.
// The two numbers stay apart: each step exchanges them, takes their sizes or one of them alone.

ghost use Rattle.std.specs.Prelude.{◌≡◌, nat_abs};
ghost use Rattle.rules.specs.Units.{quarter};
ghost use Rattle.rules.specs.Reading as rule;
ghost use Rattle.rules.specs.Heights.{height};
ghost use Rattle.laws.specs.UpTo.{UpTo};
ghost use Rattle.laws.specs.Heights.{HeightGiven};
ghost use Rattle.reading.specs.Given.{OctantGiven, SizesGiven, ReadingGiven};

use length::part_to;
use rules::Direction;
use units::{CIRCLE, HALF, HALF_QUARTER, QUARTER};

// From m, the smaller size, and n, the larger: the angle from 0 to half a quarter. Their ratio is
// in parts of 2^30, as a part over a length is.
fn angle_to_half(m: i64, n: i64) -> i64
    requires { OctantGiven m n }
    ensures { result ≡ rule.angle_to_half (nat_abs m) (nat_abs n) }
{
    if 5 * m <= 2 * n {
        return arcs::in_microarcseconds(arcs::arc(part_to(m, n)));
    }
    HALF_QUARTER - arcs::in_microarcseconds(arcs::arc(part_to(n - m, n + m)))
}

// From the sizes of h and v: the angle from 0 to a quarter.
fn angle_to_quarter(h: i64, v: i64) -> i64
    requires { SizesGiven h v }
    ensures { result ≡ rule.angle_to_quarter (nat_abs h) (nat_abs v) }
{
    if h < v {
        return QUARTER - angle_to_half(h, v);
    }
    angle_to_half(v, h)
}

// The angle a of the sizes, placed by the signs of h and v.
fn by_signs(h: i64, v: i64, a: i64) -> i64
    requires { UpTo a quarter }
    ensures { result ≡ rule.by_signs h v a }
{
    if v < 0 {
        if h < 0 {
            return HALF + a;
        }
        return CIRCLE - a;
    }
    if h < 0 {
        return HALF - a;
    }
    a
}

// The angle of (h, v), not both nought.
pub fn angle_of(h: i64, v: i64) -> i64
    requires { ReadingGiven h v }
    ensures { result ≡ rule.angle_of h v }
{
    let m = whole::size_of(h);
    let n = whole::size_of(v);
    let a = by_signs(h, v, angle_to_quarter(m, n));
    if a < CIRCLE { a } else { 0 }
}

// The height of v.
pub fn height_of(v: Direction) -> i64
    requires { HeightGiven v }
    ensures { result ≡ height v }
{
    let a = angle_of(roots::whole_root(v.x * v.x + v.y * v.y), v.z);
    if HALF < a { a - CIRCLE } else { a }
}
