// Several angles of an instant, of the crates `precession`, `arguments` and `nutation`. The structs
// have a conversion each, alike but for the names that C gives the numbers.

ghost use Rattle.std.specs.Prelude.{◌≡◌};
ghost use Rattle.rules.specs.Answers.{precessed_answer, five_arguments_answer, nutated_answer};
ghost use Rattle.tests_functions.specs.Angles.{tests_precessed, tests_five_arguments};
ghost use Rattle.tests_functions.specs.Angles.{tests_nutated};
ghost use Rattle.rules.specs.Precession.{precession_at};
ghost use Rattle.rules.specs.Arguments.{arguments_at};
ghost use Rattle.rules.specs.Nutation.{nutation_at};
ghost use Rattle.tests_functions.specs.InstantsGiven.{in_tt};

use rules::{Arguments, Nutation, Precession, Refusal, Tt};

// A Result for C: the refusal's number and noughts, or 0 and the angles of precession.
#[repr(C)]
#[derive(Clone, Copy, Default)]
pub struct TestsPrecessed {
    pub refused: i64,
    pub zeta: i64,
    pub z: i64,
    pub theta: i64,
}

// A Result for C: the refusal's number and noughts, or 0 and l, l', F, D, Ω.
#[repr(C)]
#[derive(Clone, Copy, Default)]
pub struct TestsFiveArguments {
    pub refused: i64,
    pub l: i64,
    pub l1: i64,
    pub f: i64,
    pub d: i64,
    pub om: i64,
}

// A Result for C: the refusal's number and noughts, or 0 and Δψ, Δε.
#[repr(C)]
#[derive(Clone, Copy, Default)]
pub struct TestsNutated {
    pub refused: i64,
    pub longitude: i64,
    pub obliquity: i64,
}

impl From<Result<Precession, Refusal>> for TestsPrecessed {
    ghost from_gives = { λ a b. b ≡ tests_precessed (precessed_answer a) };

    fn from(a: Result<Precession, Refusal>) -> TestsPrecessed {
        match a {
            Ok(p) => TestsPrecessed {
                refused: 0,
                zeta: p.zeta,
                z: p.z,
                theta: p.theta,
            },
            Err(r) => TestsPrecessed {
                refused: refusals::number(r),
                ..Default::default()
            },
        }
    }
}

impl From<Result<Arguments, Refusal>> for TestsFiveArguments {
    ghost from_gives = { λ a b. b ≡ tests_five_arguments (five_arguments_answer a) };

    fn from(a: Result<Arguments, Refusal>) -> TestsFiveArguments {
        match a {
            Ok(p) => TestsFiveArguments {
                refused: 0,
                l: p.moon,
                l1: p.sun,
                f: p.latitude,
                d: p.elongation,
                om: p.node,
            },
            Err(r) => TestsFiveArguments {
                refused: refusals::number(r),
                ..Default::default()
            },
        }
    }
}

impl From<Result<Nutation, Refusal>> for TestsNutated {
    ghost from_gives = { λ a b. b ≡ tests_nutated (nutated_answer a) };

    fn from(a: Result<Nutation, Refusal>) -> TestsNutated {
        match a {
            Ok(n) => TestsNutated {
                refused: 0,
                longitude: n.longitude,
                obliquity: n.obliquity,
            },
            Err(r) => TestsNutated {
                refused: refusals::number(r),
                ..Default::default()
            },
        }
    }
}

// Precession at a TT instant.
pub fn tests_precession(tt: i64) -> TestsPrecessed
    ensures { result ≡ tests_precessed (precessed_answer (precession_at (in_tt tt))) }
{
    precession::precession(Tt(tt)).into()
}

// The five arguments of nutation at a TT instant.
pub fn tests_arguments(tt: i64) -> TestsFiveArguments
    ensures { result ≡ tests_five_arguments (five_arguments_answer (arguments_at (in_tt tt))) }
{
    arguments::arguments(Tt(tt)).into()
}

// Nutation at a TT instant.
pub fn tests_nutation(tt: i64) -> TestsNutated
    ensures { result ≡ tests_nutated (nutated_answer (nutation_at (in_tt tt))) }
{
    nutation::nutation(Tt(tt)).into()
}
