#![tactic(auto)]

// The sidereal angle, of UT.

ghost use Rattle.std.specs.Prelude.{◌≡◌};
ghost use Rattle.rules.specs.Sidereal.{sidereal_polynomial, sidereal, sidereal_at};

use polynomials::cubic;
use polynomials::range::{InRange, in_range};
use rules::{Refusal, Ut};
use units::DAY;

// The sidereal angle.
//
// Given: t, UT, from -Q to Q.
// Returned: µas, from 0 to C - 1.
// Rule: docs/RULES.md, "Polynomials in time" (Aoki 1982). UT counts from noon, and the constant has
// its 12 h.
pub fn sidereal_of(t: InRange<Ut>) -> i64
    ensures { result ≡ sidereal t }
{
    whole::on_circle(sidereal_polynomial_of(t) + 15000 * whole::modulo_of(t.at.0, DAY))
}

// The sidereal polynomial alone, before the rest is added and C taken out.
//
// Given: t, UT, from -Q to Q.
// Returned: µas, not reduced by C.
// Rule: docs/RULES.md, "Polynomials in time" (Aoki 1982; source 001 misprints a minus before
// 0.093104).
//
// It differs from the other polynomials in its coefficients alone: each is a rule of its own, by
// its name.
pub fn sidereal_polynomial_of(t: InRange<Ut>) -> i64
    ensures { result ≡ sidereal_polynomial t }
{
    cubic(t.at.0, 1009658226150, 129602772192990, 1396560, -93)
}

// The sidereal angle, at any instant.
//
// Given: t, UT, any.
// Returned: µas, from 0 to C - 1, or refusal 12.
// Rule: docs/RULES.md, "Polynomials in time" (Aoki 1982).
//
// One like it stands for each angle: `polynomials::range::in_range` has what they share.
pub fn sidereal(t: Ut) -> Result<i64, Refusal>
    ensures { result ≡ sidereal_at t }
{
    Ok(sidereal_of(in_range(t)?))
}
