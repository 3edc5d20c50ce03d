// An angle of an instant, of the crates `precession`, `sun` and `sidereal`, and their polynomials
// before the rest is added.

ghost use Rattle.std.specs.Prelude.{◌≡◌};
ghost use Rattle.rules.specs.Answers.{angle_answer};
ghost use Rattle.tests_functions.specs.Angles.{tests_angle};
ghost use Rattle.rules.specs.Precession.{obliquity_at};
ghost use Rattle.rules.specs.Sun.{sun_longitude_at, mean_longitude, perihelion_at};
ghost use Rattle.rules.specs.Sidereal.{sidereal_at, sidereal_polynomial};
ghost use Rattle.tests_functions.specs.InstantsGiven.{in_tt, in_ut};
ghost use Rattle.rules.specs.Polynomials.{angle_at};

use answers::numbered;
use polynomials::range::in_range;
use rules::{Refusal, Tt, Ut};

// A Result for C: the refusal's number and noughts, or 0 and the angle. One like it stands for each
// such number, since C names it.
#[repr(C)]
#[derive(Clone, Copy)]
pub struct TestsAngle {
    pub refused: i64,
    pub angle: i64,
}

impl From<Result<i64, Refusal>> for TestsAngle {
    ghost from_gives = { λ a b. b ≡ tests_angle (angle_answer a) };

    fn from(a: Result<i64, Refusal>) -> TestsAngle {
        let (refused, angle) = numbered(a, 0);
        TestsAngle { refused, angle }
    }
}

// The mean obliquity at a TT instant.
pub fn tests_obliquity(tt: i64) -> TestsAngle
    ensures { result ≡ tests_angle (angle_answer (obliquity_at (in_tt tt))) }
{
    precession::obliquity(Tt(tt)).into()
}

// The Sun's longitude at a TT instant.
pub fn tests_sun(tt: i64) -> TestsAngle
    ensures { result ≡ tests_angle (angle_answer (sun_longitude_at (in_tt tt))) }
{
    sun::sun_longitude(Tt(tt)).into()
}

// The longitude of perihelion at a TT instant.
pub fn tests_perihelion(tt: i64) -> TestsAngle
    ensures { result ≡ tests_angle (angle_answer (perihelion_at (in_tt tt))) }
{
    sun::perihelion::perihelion(Tt(tt)).into()
}

// The sidereal angle at a UT instant.
pub fn tests_sidereal(ut: i64) -> TestsAngle
    ensures { result ≡ tests_angle (angle_answer (sidereal_at (in_ut ut))) }
{
    sidereal::sidereal(Ut(ut)).into()
}

// The Sun's mean longitude at a TT instant.
pub fn tests_mean_longitude(tt: i64) -> TestsAngle
    ensures { result ≡ tests_angle (angle_answer (angle_at tt (mean_longitude (in_tt tt)))) }
{
    in_range(Tt(tt)).map(sun::mean_longitude_of).into()
}

// The sidereal polynomial at a UT instant.
pub fn tests_sidereal_polynomial(ut: i64) -> TestsAngle
    ensures { result ≡ tests_angle (angle_answer (angle_at ut (sidereal_polynomial (in_ut ut)))) }
{
    in_range(Ut(ut))
        .map(sidereal::sidereal_polynomial_of)
        .into()
}
