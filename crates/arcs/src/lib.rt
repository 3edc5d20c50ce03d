#![tactic(auto)]

// The arc of a reading, docs/RULES.md, "Turns, readings, place": θ whose tangent is u, in parts of
// 2^30, and in µas.

ghost use Rattle.std.specs.Prelude.{◌≡◌, pos, nat_abs};
ghost use Rattle.rules.specs.Units.{unit};
ghost use Rattle.rules.specs.Rounding.{rnd};
ghost use Rattle.rules.specs.Reading as rule;
ghost use Rattle.laws.specs.UpTo.{UpTo};
ghost use Rattle.laws.specs.Arc.{three_sevenths};
ghost use Rattle.series.specs.Given.{StageGiven};

use series::parts::square_parts;
use units::{HALF, HALF_IN_PARTS, UNIT};

// p = Rnd(2^30 / k) - Rnd(w p / 2^30).
fn arc_stage(w: i64, k: i64, p: i64) -> i64
    requires { StageGiven w k p }
    ensures { result ≡ rule.arc_stage w (nat_abs k) p }
{
    rounding::rnd_quotient(UNIT, k) - rounding::rnd_by_unit(w * p)
}

// The arc's row: θ over u. What it shares with `series::rows::stages` is the `for` over the row:
// the stage and where it begins are each one's own. `UpTo` stays a clause, as there.
fn arc_factor(w: i64) -> i64
    requires { UpTo w unit }
    ensures { result ≡ rule.arc_stages w rule.arc_row (rnd (pos unit) 23) }
{
    let mut p = rounding::rnd_quotient(UNIT, 23);
    for k in &[21, 19, 17, 15, 13, 11, 9, 7, 5, 3, 1] {
        p = arc_stage(w, *k, p);
    }
    p
}

// θ = Rnd(u p / 2^30).
pub fn arc(u: i64) -> i64
    requires { UpTo u three_sevenths }
    ensures { result ≡ rule.arc u }
{
    let w = square_parts(u);
    rounding::rnd_by_unit(u * arc_factor(w))
}

// Rnd(θ * 648,000,000,000 / 3,373,259,426): radians to µas. The product passes the word, so it is
// carried.
pub fn in_microarcseconds(t: i64) -> i64
    requires { UpTo t unit }
    ensures { result ≡ rule.in_microarcseconds t }
{
    rounding::rnd_product_quotient(HALF, t, HALF_IN_PARTS)
}
