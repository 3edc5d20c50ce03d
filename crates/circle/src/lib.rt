#![tactic(auto)]

// Sine and cosine of an angle, docs/RULES.md, "Sine and cosine". Angles are in µas, all else in
// parts of 2^30.

ghost use Rattle.std.specs.Prelude.{◌≡◌};
ghost use Rattle.rules.specs.Circle as circle;

use rules::Pair;
use units::QUARTER;

mod quarters;

// Cosine and sine of an angle.
//
// Given: a, any, in µas.
// Returned: the pair in parts of 2^30, no part larger than 2^30, its squared length accepted.
// Rule: docs/RULES.md, "Sine and cosine".
pub fn pair(a: i64) -> Pair
    ensures { result ≡ circle.pair a }
{
    let m = whole::on_circle(a);
    let p = quarters::pair_to_quarter(m % QUARTER);
    quarters::in_quarter(m / QUARTER, p)
}
