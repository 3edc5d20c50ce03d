#![tactic(auto)]

// Polynomials in time by document 01's rule, for any coefficients: from the highest down, multiply
// by t, Rnd by Q, add the next. Coefficients in µas, constant first.

ghost use Rattle.std.specs.Prelude.{◌≡◌, [], ◌∷◌};
ghost use Rattle.rules.specs.Polynomials.{instant_refused, times_t_plus, polynomial};
ghost use Rattle.polynomials.specs.Fits.{StepFits, PolynomialFits};

pub mod range;

use rounding::{rnd_product_quotient, rnd_quotient};
use units::CENTURY;

// One timesTPlus where t * p may pass the word: times t, Rnd by Q, the next coefficient.
fn times_t_plus(t: i64, p: i64, next: i64) -> i64
    requires { StepFits t p next }
    ensures { result ≡ times_t_plus t p next }
{
    rnd_product_quotient(t, p, CENTURY) + next
}

// A polynomial of two coefficients. Every polynomial begins here: the product of its highest
// coefficient fits the word, and is not carried in parts.
//
// One function over an array of N would be no plainer: it would ask for two coefficients at least,
// take the two highest by their places from the end, and say in a loop's invariant what `quadratic`
// and `cubic` say by a call of the one before.
pub fn linear(t: i64, c0: i64, c1: i64) -> i64
    requires { PolynomialFits t (c0 ∷ c1 ∷ []) }
    ensures { result ≡ polynomial (c0 ∷ c1 ∷ []) t }
{
    rnd_quotient(t * c1, CENTURY) + c0
}

// A polynomial of three coefficients.
pub fn quadratic(t: i64, c0: i64, c1: i64, c2: i64) -> i64
    requires { PolynomialFits t (c0 ∷ c1 ∷ c2 ∷ []) }
    ensures { result ≡ polynomial (c0 ∷ c1 ∷ c2 ∷ []) t }
{
    times_t_plus(t, linear(t, c1, c2), c0)
}

// A polynomial of four coefficients.
pub fn cubic(t: i64, c0: i64, c1: i64, c2: i64, c3: i64) -> i64
    requires { PolynomialFits t (c0 ∷ c1 ∷ c2 ∷ c3 ∷ []) }
    ensures { result ≡ polynomial (c0 ∷ c1 ∷ c2 ∷ c3 ∷ []) t }
{
    times_t_plus(t, quadratic(t, c1, c2, c3), c0)
}

// Refusal 12: whether the instant t is outside -Q to Q.
pub fn instant_refused(t: i64) -> bool
    ensures { result ≡ instant_refused t }
{
    !whole::is_between(-CENTURY, CENTURY, t)
}
