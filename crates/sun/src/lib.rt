#![tactic(auto)]

// The Sun's longitude, of TT.

pub mod perihelion;

ghost use Rattle.std.specs.Prelude.{◌≡◌};
ghost use Rattle.rules.specs.Circle as rule;
ghost use Rattle.rules.specs.Sun.{mean_longitude, centre, sun_longitude, sun_longitude_at};

use arguments::sun_of;
use circle::pair;
use polynomials::range::{InRange, in_range};
use polynomials::{linear, quadratic};
use rounding::rnd_quotient;
use rules::{Refusal, Tt};
use units::UNIT;

// The Sun's longitude.
//
// Given: t, TT, from -Q to Q.
// Returned: µas, not reduced by C.
// Rule: docs/RULES.md, "Polynomials in time".
pub fn sun_longitude_of(t: InRange<Tt>) -> i64
    ensures { result ≡ sun_longitude t }
{
    // read, so that the range in `InRange` is known here: that keeps the sum within the word
    let _ = &t.at;
    mean_longitude_of(t) + centre_of(t)
}

// The Sun's mean longitude.
//
// Given: t, TT, from -Q to Q.
// Returned: µas, not reduced by C.
// Rule: docs/RULES.md, "Polynomials in time" (source 000 misprints a minus before 0.0003032).
//
// It differs from the other polynomials in its coefficients alone: each is a rule of its own, by
// its name.
pub fn mean_longitude_of(t: InRange<Tt>) -> i64
    ensures { result ≡ mean_longitude t }
{
    quadratic(t.at.0, 1009679256000, 129602771388000, 1091520)
}

// The centre (source 000, equation 7.3): the three products are summed and rounded once.
fn centre_of(t: InRange<Tt>) -> i64
    ensures { result ≡ centre t }
{
    let l = sun_of(t);
    let ms = t.at.0;
    let first = quadratic(ms, 6892560000, -17341200, -50400) * sine(l);
    let second = linear(ms, 71974800, -363600) * sine(2 * l);
    let third = 1044000 * sine(3 * l);
    rnd_quotient(first + second + third, UNIT)
}

// The sine of an angle.
fn sine(a: i64) -> i64
    ensures { result ≡ (rule.pair a).sine }
{
    pair(a).sine
}

// The Sun's longitude, at any instant.
//
// Given: t, TT, any.
// Returned: µas, not reduced by C, or refusal 12.
// Rule: docs/RULES.md, "Polynomials in time".
//
// One like it stands for each angle: `polynomials::range::in_range` has what they share.
pub fn sun_longitude(t: Tt) -> Result<i64, Refusal>
    ensures { result ≡ sun_longitude_at t }
{
    Ok(sun_longitude_of(in_range(t)?))
}
