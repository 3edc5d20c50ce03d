// Several angles of an instant, of the crates `precession`, `arguments` and `nutation`.

ghost use Rattle.std.specs.Prelude.{◌≡◌};
ghost use Rattle.rules.specs.Answers.{precessed_answer, five_arguments_answer, nutated_answer};
ghost use Rattle.tests_functions.specs.Angles.{tests_precessed, tests_five_arguments};
ghost use Rattle.tests_functions.specs.Angles.{tests_nutated};
ghost use Rattle.rules.specs.Precession.{precession_at};
ghost use Rattle.rules.specs.Arguments.{arguments_at};
ghost use Rattle.rules.specs.Nutation.{nutation_at};
ghost use Rattle.tests_functions.specs.InstantsGiven.{in_tt};

use tests_functions::angle_sets::{TestsFiveArguments, TestsNutated, TestsPrecessed};

// Precession at a TT instant.
#[unsafe(no_mangle)]
pub extern "C" fn tests_precession(tt: i64) -> TestsPrecessed
    ensures { result ≡ tests_precessed (precessed_answer (precession_at (in_tt tt))) }
{
    tests_functions::angle_sets::tests_precession(tt)
}

// The five arguments of nutation at a TT instant.
#[unsafe(no_mangle)]
pub extern "C" fn tests_arguments(tt: i64) -> TestsFiveArguments
    ensures { result ≡ tests_five_arguments (five_arguments_answer (arguments_at (in_tt tt))) }
{
    tests_functions::angle_sets::tests_arguments(tt)
}

// Nutation at a TT instant.
#[unsafe(no_mangle)]
pub extern "C" fn tests_nutation(tt: i64) -> TestsNutated
    ensures { result ≡ tests_nutated (nutated_answer (nutation_at (in_tt tt))) }
{
    tests_functions::angle_sets::tests_nutation(tt)
}
