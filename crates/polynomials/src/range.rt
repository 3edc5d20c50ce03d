// Instants from -Q to Q.

ghost use Rattle.std.specs.Prelude.{◌≡◌, cond, ℤ, Ok, Err};
ghost use Rattle.rules.specs.declared.Refusal.{Refusal as Why};
ghost use Rattle.rules.specs.Polynomials as rule;

use crate::instant_refused;
use rules::{Refusal, Tt, Ut};
use std::alloc::AllocError;
use std::marker::Model;

// An instant of one of the two scales, which counts its ms from J2000.0.
pub trait Instant: Copy {
    ghost ms: { Self → ℤ };

    fn ms(self) -> i64
        ensures { result ≡ ms self };
}

impl Instant for Tt {
    ghost ms = { λ t. t.0 };

    fn ms(self) -> i64 {
        let Tt(ms) = self;
        ms
    }
}

impl Instant for Ut {
    ghost ms = { λ t. t.0 };

    fn ms(self) -> i64 {
        let Ut(ms) = self;
        ms
    }
}

// An instant from -Q to Q. A contract sees the instant alone.
pub struct InRange<T: Instant> {
    pub at: T,
}

impl<T: Instant> Copy for InRange<T> {}

// Copy and Clone are by hand: derived, it would clone the instant, which the trait does not say to be
// the same.
impl<T: Instant> Clone for InRange<T> {
    fn clone(&self) -> Result<Self, AllocError> {
        Ok(*self)
    }
}

impl<T: Instant> Model for InRange<T> {
    ghost use Rattle.laws.specs.Instant as law;

    ghost Value = { T };

    ghost view = { λ a. a.at };

    ghost invariant = { λ a. law.InRange (T.ms a.at) };

    ghost inverse = { λ t. record { at = t } };
}

// The instant, or refusal 12. What an angle answers at any instant is `Ok(X_of(in_range(t)?))` in
// each crate: what they share is this, and one function over them all would be no shorter than what
// is left of each.
pub fn in_range<T: Instant>(t: T) -> Result<InRange<T>, Refusal>
    ensures { result ≡ cond (rule.instant_refused (T.ms t)) (Err Why.Instant) (Ok t) }
{
    if instant_refused(t.ms()) {
        return Err(Refusal::Instant);
    }
    Ok(InRange { at: t })
}
