#![tactic(auto)]

// Precession from J2000 and the mean obliquity, of TT.

ghost use Rattle.std.specs.Prelude.{◌≡◌};
ghost use Rattle.rules.specs.Precession.{precession, precession_at, obliquity, obliquity_at};

use polynomials::cubic;
use polynomials::range::{InRange, in_range};
use rules::{Precession, Refusal, Tt};

// The three angles of precession from J2000.
//
// Given: t, TT, from -Q to Q.
// Returned: ζ, z, θ in µas.
// Rule: docs/RULES.md, "Polynomials in time" (Lieske 1977; source 000 misprints 0.041883 in θ).
pub fn precession_of(t: InRange<Tt>) -> Precession
    ensures { result ≡ precession t }
{
    let ms = t.at.0;
    Precession {
        zeta: cubic(ms, 0, 2306218100, 301880, 17998),
        z: cubic(ms, 0, 2306218100, 1094680, 18203),
        theta: cubic(ms, 0, 2004310900, -426650, -41833),
    }
}

// The three angles of precession from J2000, at any instant.
//
// Given: t, TT, any.
// Returned: ζ, z, θ in µas, or refusal 12.
// Rule: docs/RULES.md, "Polynomials in time" (Lieske 1977).
//
// One like it stands for each angle: `polynomials::range::in_range` has what they share.
pub fn precession(t: Tt) -> Result<Precession, Refusal>
    ensures { result ≡ precession_at t }
{
    Ok(precession_of(in_range(t)?))
}

// The mean obliquity ε.
//
// Given: t, TT, from -Q to Q.
// Returned: ε in µas.
// Rule: docs/RULES.md, "Polynomials in time" (Lieske 1977; source 000, equation 3.6).
//
// It differs from the other polynomials in its coefficients alone: each is a rule of its own, by
// its name.
pub fn obliquity_of(t: InRange<Tt>) -> i64
    ensures { result ≡ obliquity t }
{
    cubic(t.at.0, 84381448000, -46815000, -590, 1813)
}

// The mean obliquity ε, at any instant.
//
// Given: t, TT, any.
// Returned: ε in µas, or refusal 12.
// Rule: docs/RULES.md, "Polynomials in time".
//
// One like it stands for each angle: `polynomials::range::in_range` has what they share.
pub fn obliquity(t: Tt) -> Result<i64, Refusal>
    ensures { result ≡ obliquity_at t }
{
    Ok(obliquity_of(in_range(t)?))
}
