// UT and TT of a moment, of the crate `instants`.

ghost use Rattle.std.specs.Prelude.{◌≡◌};
ghost use Rattle.rules.specs.Answers.{instants_answer};
ghost use Rattle.tests_functions.specs.Dates.{tests_instants};
ghost use Rattle.tests_functions.specs.DatesGiven.{instants_of};

use answers::given::moment_of;
use rules::{Instants, Refusal};

// A Result for C: the refusal's number and noughts, or 0 and UT, TT.
#[repr(C)]
#[derive(Clone, Copy, Default)]
pub struct TestsInstants {
    pub refused: i64,
    pub ut: i64,
    pub tt: i64,
}

impl From<Result<Instants, Refusal>> for TestsInstants {
    ghost from_gives = { λ a b. b ≡ tests_instants (instants_answer a) };

    fn from(a: Result<Instants, Refusal>) -> TestsInstants {
        match a {
            Ok(at) => TestsInstants {
                refused: 0,
                ut: at.ut.0,
                tt: at.tt.0,
            },
            Err(r) => TestsInstants {
                refused: refusals::number(r),
                ..Default::default()
            },
        }
    }
}

// UT and TT of a UTC date with its time of day and UT1-UTC.
pub fn tests_instants(
    year: i32,
    month: i32,
    day: i32,
    hour: i32,
    minute: i32,
    second: i32,
    ms: i32,
    ut1_minus_utc: i32,
) -> TestsInstants
    ensures { result ≡ instants_of year month day hour minute second ms ut1_minus_utc }
{
    let moment = moment_of(year, month, day, hour, minute, second, ms, ut1_minus_utc);
    instants::instants(moment).into()
}
