// Sine and cosine, of the crate `circle`.

ghost use Rattle.std.specs.Prelude.{◌≡◌};
ghost use Rattle.tests_functions.specs.Pairs.{tests_pair};

use tests_functions::pairs::TestsPair;

// The pair of an angle in µas.
#[unsafe(no_mangle)]
pub extern "C" fn tests_pair(angle: i64) -> TestsPair
    ensures { result ≡ tests_pair angle }
{
    tests_functions::pairs::tests_pair(angle)
}
