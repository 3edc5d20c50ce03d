// From nought to half a quarter, docs/RULES.md, "Sine and cosine": x of an angle, and the pair of
// x. All but the angle is in parts of 2^30.

ghost use Rattle.std.specs.Prelude.{◌≡◌, ◌≤◌, nat_abs};
ghost use Rattle.rules.specs.Units.{unit, half_quarter};
ghost use Rattle.rules.specs.Length.{pair_to_length};
ghost use Rattle.rules.specs.Circle.{radian_parts, square_parts, pair_of_parts};
ghost use Rattle.laws.specs.UpTo.{UpTo};
ghost use Rattle.laws.specs.Circle.{half_quarter_parts};
ghost use Rattle.series.specs.Given.{PairGiven};

use crate::rows;
use rules::Pair;
use units::{HALF, HALF_IN_PARTS};

// x = Rnd(r * 3,373,259,426 / 648,000,000,000): µas to radians. The product passes the word, so it
// is carried.
pub fn radian_parts(r: i64) -> i64
    requires { UpTo r half_quarter }
    ensures { result ≡ radian_parts r }
{
    rounding::rnd_product_quotient(r, HALF_IN_PARTS, HALF)
}

// w = Rnd(x^2 / 2^30).
pub fn square_parts(x: i64) -> i64
    requires { nat_abs x ≤ unit }
    ensures { result ≡ square_parts x }
{
    rounding::rnd_by_unit(x * x)
}

// The pair of x.
pub fn pair_of_parts(x: i64) -> Pair
    requires { UpTo x half_quarter_parts }
    ensures { result ≡ pair_of_parts x }
{
    let w = square_parts(x);
    let sine = rounding::rnd_by_unit(x * rows::sine_factor(w));
    let cosine = rows::raw_cosine(w);
    pair_to_length(Pair { cosine, sine })
}

// p, brought to length. Its own is always near 2^30: the root is taken without a test.
fn pair_to_length(p: Pair) -> Pair
    requires { PairGiven p }
    ensures { result ≡ pair_to_length p }
{
    let l = roots::near_root(p.cosine * p.cosine + p.sine * p.sine);
    Pair {
        cosine: length::part_to(p.cosine, l),
        sine: length::part_to(p.sine, l),
    }
}
