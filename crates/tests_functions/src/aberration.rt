// What aberration adds, of the crate `night_pairs`.

ghost use Rattle.std.specs.Prelude.{◌≡◌};
ghost use Rattle.tests_functions.specs.InstantsGiven.{in_tt};
ghost use Rattle.tests_functions.specs.Aberration.{aberration_at, aberration_given};
ghost use Rattle.tests_functions.specs.Aberration.{tests_aberration};

use circle::pair;
use polynomials::range::{InRange, in_range};
use rules::Tt;

// A Result for C: the refusal's number and noughts, or 0, bx and by, and the three numbers that are
// added.
#[repr(C)]
#[derive(Clone, Copy, Default)]
pub struct TestsAberration {
    pub refused: i64,
    pub bx: i64,
    pub by: i64,
    pub x: i64,
    pub y: i64,
    pub z: i64,
}

// Aberration at a TT instant. A match and no `From`: bx and by stand in no value of the rules that
// could be turned.
pub fn tests_aberration(tt: i64) -> TestsAberration
    ensures { result ≡ tests_aberration (aberration_at (in_tt tt)) }
{
    match in_range(Tt(tt)) {
        Ok(t) => given_at(t),
        Err(r) => TestsAberration {
            refused: refusals::number(r),
            ..Default::default()
        },
    }
}

// The same of an instant that is not refused.
fn given_at(t: InRange<Tt>) -> TestsAberration
    ensures { result ≡ tests_aberration (aberration_given t) }
{
    let sun = pair(sun::sun_longitude_of(t));
    let perihelion = pair(sun::perihelion::perihelion_of(t));
    let mean = pair(precession::obliquity_of(t));
    let added = night_pairs::aberration(sun, perihelion, mean);
    TestsAberration {
        refused: 0,
        bx: night_pairs::aberration_x(sun, perihelion),
        by: night_pairs::aberration_y(sun, perihelion),
        x: added.x,
        y: added.y,
        z: added.z,
    }
}
