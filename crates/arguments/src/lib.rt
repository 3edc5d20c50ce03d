#![tactic(auto)]

// The five arguments of nutation, of TT.

ghost use Rattle.std.specs.Prelude.{◌≡◌};
ghost use Rattle.rules.specs.Arguments.{arguments, arguments_at};

use polynomials::cubic;
use polynomials::range::{InRange, in_range};
use rules::{Arguments, Refusal, Tt};

// The five arguments of nutation.
//
// Given: t, TT, from -Q to Q.
// Returned: l, l', F, D, Ω in µas, not reduced by C.
// Rule: docs/RULES.md, "Polynomials in time" (IAU 1980; in degrees source 000, section 3.5.1.2).
pub fn arguments_of(t: InRange<Tt>) -> Arguments
    ensures { result ≡ arguments t }
{
    let ms = t.at.0;
    Arguments {
        moon: cubic(ms, 485866733000, 1717915922633000, 31310000, 64000),
        sun: sun_of(t),
        latitude: cubic(ms, 335778877000, 1739527263137000, -13257000, 11000),
        elongation: cubic(ms, 1072261307000, 1602961601328000, -6891000, 19000),
        node: cubic(ms, 450160280000, -6962890539000, 7455000, 8000),
    }
}

// l' alone, for the Sun's centre. It differs from the other polynomials in its coefficients alone:
// each is a rule of its own, by its name.
pub fn sun_of(t: InRange<Tt>) -> i64
    ensures { result ≡ (arguments t).sun }
{
    cubic(t.at.0, 1287099804000, 129596581224000, -577000, -12000)
}

// The five arguments of nutation, at any instant.
//
// Given: t, TT, any.
// Returned: l, l', F, D, Ω in µas, not reduced by C, or refusal 12.
// Rule: docs/RULES.md, "Polynomials in time" (IAU 1980).
//
// One like it stands for each angle: `polynomials::range::in_range` has what they share.
pub fn arguments(t: Tt) -> Result<Arguments, Refusal>
    ensures { result ≡ arguments_at t }
{
    Ok(arguments_of(in_range(t)?))
}
