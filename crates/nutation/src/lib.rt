#![tactic(auto)]

// Nutation by its ten largest terms, of TT.

ghost use Rattle.std.specs.Prelude.{◌≡◌};
ghost use Rattle.rules.specs.Arguments as rule;
ghost use Rattle.rules.specs.Nutation.{term_angle, nutation, nutation_at};
ghost use Rattle.nutation.specs.Products.{products_of};
ghost use Rattle.nutation.specs.TermFits.{ArgumentsFit, TermFits};

use crate::terms::TERMS;
use arguments::arguments_of;
use circle::pair;
use polynomials::linear;
use polynomials::range::{InRange, in_range};
use rounding::rnd_quotient;
use rules::{Arguments, Nutation, Refusal, Term, Tt};
use units::UNIT;

mod terms;

// Nutation in longitude and in obliquity.
//
// Given: t, TT, from -Q to Q.
// Returned: Δψ and Δε in µas.
// Rule: docs/RULES.md, "Polynomials in time", the table (IAU 1980). Each sum is rounded once, at
// the end.
pub fn nutation_of(t: InRange<Tt>) -> Nutation
    ensures { result ≡ nutation t }
{
    // read, so that the range in `InRange` is known here: that keeps the sums within the word
    let _ = &t.at;
    let a = arguments_of(t);
    let mut longitude: i64 = 0;
    let mut obliquity: i64 = 0;
    for term in &TERMS {
        let p = products(t, a, *term);
        longitude += p.longitude;
        obliquity += p.obliquity;
    }
    Nutation {
        longitude: rnd_quotient(longitude, UNIT),
        obliquity: rnd_quotient(obliquity, UNIT),
    }
}

// Nutation in longitude and in obliquity, at any instant.
//
// Given: t, TT, any.
// Returned: Δψ and Δε in µas, or refusal 12.
// Rule: docs/RULES.md, "Polynomials in time", the table (IAU 1980).
//
// One like it stands for each angle: `polynomials::range::in_range` has what they share.
pub fn nutation(t: Tt) -> Result<Nutation, Refusal>
    ensures { result ≡ nutation_at t }
{
    Ok(nutation_of(in_range(t)?))
}

// The products of a term: amplitude with its change, times the sine in longitude and the cosine in
// obliquity.
fn products(t: InRange<Tt>, a: Arguments, m: Term) -> Nutation
    requires a_value { a ≡ rule.arguments t }
    requires term_fits { TermFits m }
    ensures { result ≡ products_of t m }
{
    let ms = t.at.0;
    let p = pair(term_angle(a, m));
    let sines = linear(ms, m.longitude, m.longitude_change) * p.sine;
    let cosines = linear(ms, m.obliquity, m.obliquity_change) * p.cosine;
    Nutation {
        longitude: sines,
        obliquity: cosines,
    }
}

// A term's angle, from its multiples of the arguments.
fn term_angle(a: Arguments, m: Term) -> i64
    requires arguments_fit { ArgumentsFit a }
    requires term_fits { TermFits m }
    ensures { result ≡ term_angle a m }
{
    let moon = m.moon * a.moon;
    let sun = m.sun * a.sun;
    let latitude = m.latitude * a.latitude;
    let elongation = m.elongation * a.elongation;
    moon + sun + latitude + elongation + m.node * a.node
}
