// UT and TT of a moment, of the crate `instants`.

ghost use Rattle.std.specs.Prelude.{◌≡◌};
ghost use Rattle.tests_functions.specs.Dates.{tests_instants};
ghost use Rattle.tests_functions.specs.DatesGiven.{instants_of};

use tests_functions::moments::TestsInstants;

// UT and TT of a UTC date with its time of day and UT1-UTC.
#[unsafe(no_mangle)]
pub extern "C" fn tests_instants(
    year: i32,
    month: i32,
    day: i32,
    hour: i32,
    minute: i32,
    second: i32,
    ms: i32,
    ut1_minus_utc: i32,
) -> TestsInstants
    ensures { result ≡ instants_of year month day hour minute second ms ut1_minus_utc }
{
    tests_functions::moments::tests_instants(
        year,
        month,
        day,
        hour,
        minute,
        second,
        ms,
        ut1_minus_utc,
    )
}
