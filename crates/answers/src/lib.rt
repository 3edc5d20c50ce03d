#![tactic(auto)]

// The answers that C gets: a struct for each, the number of the refusal and noughts, or 0 and the
// values; and what C gives, as the rules' data.

ghost use Rattle.std.specs.Prelude.{◌≡◌};
ghost use Rattle.answers.specs.Numbered.{numbered};

use rules::Refusal;

pub mod clocks;
pub mod given;
pub mod lists;
pub mod observed;
pub mod places;
pub mod probe;
pub mod turns;

// One number that may be refused: the refusal's number and nought, or 0 and the number. The nought
// is given: of `Default` its trait does not say that it is one.
pub fn numbered<T: Drop>(a: Result<T, Refusal>, nought: T) -> (i64, T)
    ensures { result ≡ numbered a nought }
{
    match a {
        Ok(n) => (0, n),
        Err(r) => (refusals::number(r), nought),
    }
}
