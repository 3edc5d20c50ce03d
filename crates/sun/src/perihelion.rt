// The longitude of perihelion of the Earth's orbit, ϖ, of TT.

ghost use Rattle.std.specs.Prelude.{◌≡◌};
ghost use Rattle.rules.specs.Sun as rule;

use polynomials::quadratic;
use polynomials::range::{InRange, in_range};
use rules::{Refusal, Tt};

// The longitude of perihelion.
//
// Given: t, TT, from -Q to Q.
// Returned: ϖ in µas.
// Rule: docs/RULES.md, "Polynomials in time" (source 000, section 4.2.1).
//
// It differs from the other polynomials in its coefficients alone: each is a rule of its own, by
// its name.
pub fn perihelion_of(t: InRange<Tt>) -> i64
    ensures { result ≡ rule.perihelion t }
{
    quadratic(t.at.0, 370574460000, 6190056000, 1656000)
}

// The longitude of perihelion, at any instant.
//
// Given: t, TT, any.
// Returned: ϖ in µas, or refusal 12.
// Rule: docs/RULES.md, "Polynomials in time".
//
// One like it stands for each angle: `polynomials::range::in_range` has what they share.
pub fn perihelion(t: Tt) -> Result<i64, Refusal>
    ensures { result ≡ rule.perihelion_at t }
{
    Ok(perihelion_of(in_range(t)?))
}
