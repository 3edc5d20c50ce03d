// An angle of an instant, of the crates `precession`, `sun` and `sidereal`, and their polynomials
// before the rest is added.

ghost use Rattle.std.specs.Prelude.{◌≡◌};
ghost use Rattle.rules.specs.Answers.{angle_answer};
ghost use Rattle.tests_functions.specs.Angles.{tests_angle};
ghost use Rattle.rules.specs.Precession.{obliquity_at};
ghost use Rattle.rules.specs.Sun.{sun_longitude_at, mean_longitude, perihelion_at};
ghost use Rattle.rules.specs.Sidereal.{sidereal_at, sidereal_polynomial};
ghost use Rattle.tests_functions.specs.InstantsGiven.{in_tt, in_ut};
ghost use Rattle.rules.specs.Polynomials.{angle_at};

use tests_functions::angles::TestsAngle;

// The mean obliquity at a TT instant.
#[unsafe(no_mangle)]
pub extern "C" fn tests_obliquity(tt: i64) -> TestsAngle
    ensures { result ≡ tests_angle (angle_answer (obliquity_at (in_tt tt))) }
{
    tests_functions::angles::tests_obliquity(tt)
}

// The Sun's longitude at a TT instant.
#[unsafe(no_mangle)]
pub extern "C" fn tests_sun(tt: i64) -> TestsAngle
    ensures { result ≡ tests_angle (angle_answer (sun_longitude_at (in_tt tt))) }
{
    tests_functions::angles::tests_sun(tt)
}

// The longitude of perihelion at a TT instant.
#[unsafe(no_mangle)]
pub extern "C" fn tests_perihelion(tt: i64) -> TestsAngle
    ensures { result ≡ tests_angle (angle_answer (perihelion_at (in_tt tt))) }
{
    tests_functions::angles::tests_perihelion(tt)
}

// The sidereal angle at a UT instant.
#[unsafe(no_mangle)]
pub extern "C" fn tests_sidereal(ut: i64) -> TestsAngle
    ensures { result ≡ tests_angle (angle_answer (sidereal_at (in_ut ut))) }
{
    tests_functions::angles::tests_sidereal(ut)
}

// The Sun's mean longitude at a TT instant.
#[unsafe(no_mangle)]
pub extern "C" fn tests_mean_longitude(tt: i64) -> TestsAngle
    ensures { result ≡ tests_angle (angle_answer (angle_at tt (mean_longitude (in_tt tt)))) }
{
    tests_functions::angles::tests_mean_longitude(tt)
}

// The sidereal polynomial at a UT instant.
#[unsafe(no_mangle)]
pub extern "C" fn tests_sidereal_polynomial(ut: i64) -> TestsAngle
    ensures { result ≡ tests_angle (angle_answer (angle_at ut (sidereal_polynomial (in_ut ut)))) }
{
    tests_functions::angles::tests_sidereal_polynomial(ut)
}
