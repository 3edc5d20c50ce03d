// The pair from nought to half a quarter, to a quarter, and in each quarter.

ghost use Rattle.std.specs.Prelude.{◌≡◌, nat_abs};
ghost use Rattle.rules.specs.Units.{quarter, half_quarter};
ghost use Rattle.rules.specs.Circle as rule;
ghost use Rattle.laws.specs.UpTo.{UpTo};
ghost use Rattle.circle.specs.Given.{QuarterGiven};

use rules::Pair;
use series::parts;
use units::{HALF_QUARTER, QUARTER};

// Both parts at half a quarter.
const AT_HALF: i64 = 759250125;

// The pair of r, from nought to a quarter: above half a quarter that of quarter - r, exchanged.
// `UpTo` stays a clause, as in `series`.
pub fn pair_to_quarter(r: i64) -> Pair
    requires { UpTo r quarter }
    ensures { result ≡ rule.pair_to_quarter rule.pair_to_half (nat_abs r) }
{
    if r <= HALF_QUARTER {
        return pair_to_half(r);
    }
    let p = pair_to_half(QUARTER - r);
    Pair {
        cosine: p.sine,
        sine: p.cosine,
    }
}

// The pair of r, from nought to half a quarter, where both parts are AT_HALF.
fn pair_to_half(r: i64) -> Pair
    requires { UpTo r half_quarter }
    ensures { result ≡ rule.pair_to_half (nat_abs r) }
{
    if r == HALF_QUARTER {
        return Pair {
            cosine: AT_HALF,
            sine: AT_HALF,
        };
    }
    parts::pair_of_parts(parts::radian_parts(r))
}

// A pair (c, s) in the quarter q: (c, s), (-s, c), (-c, -s), (s, -c). The quarter is a number, as
// division leaves it: to make a type of four quarters of it would take a `match` like this one.
pub fn in_quarter(q: i64, pair: Pair) -> Pair
    requires { QuarterGiven q pair }
    ensures { result ≡ rule.in_quarter (nat_abs q) pair }
{
    match q {
        0 => pair,
        1 => Pair {
            cosine: -pair.sine,
            sine: pair.cosine,
        },
        2 => Pair {
            cosine: -pair.cosine,
            sine: -pair.sine,
        },
        _ => Pair {
            cosine: pair.sine,
            sine: -pair.cosine,
        },
    }
}
