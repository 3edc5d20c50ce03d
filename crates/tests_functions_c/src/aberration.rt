// What aberration adds, of the crate `night_pairs`.

ghost use Rattle.std.specs.Prelude.{◌≡◌};
ghost use Rattle.tests_functions.specs.InstantsGiven.{in_tt};
ghost use Rattle.tests_functions.specs.Aberration.{aberration_at};
ghost use Rattle.tests_functions.specs.Aberration.{tests_aberration};

use tests_functions::aberration::TestsAberration;

// Aberration at a TT instant.
#[unsafe(no_mangle)]
pub extern "C" fn tests_aberration(tt: i64) -> TestsAberration
    ensures { result ≡ tests_aberration (aberration_at (in_tt tt)) }
{
    tests_functions::aberration::tests_aberration(tt)
}
