#![tactic(auto)]

// The six steps of a place, in their order: a star of the catalogue in, what is read from its
// directions out.

ghost use Rattle.std.specs.Prelude.{◌≡◌, ◌^◌, false};
ghost use Rattle.rules.specs.Length.{squares};
ghost use Rattle.rules.specs.Turning.{Accepted};
ghost use Rattle.rules.specs.Reading as readings;
ghost use Rattle.rules.specs.Stars.{star_refused};
ghost use Rattle.rules.specs.Place as rule;
ghost use Rattle.laws.specs.Directions.{PartsLe, plus};
ghost use Rattle.steps.specs.Given.{MotionFits, AnglesFit, PartsFit};

pub mod ready;

use ready::ReadyNight;
use rules::{Direction, Place, Star, Tt};
use units::{CIRCLE, YEAR};

// The direction (2^30, 0, 0), which step 2 begins with.
const AHEAD: Direction = Direction {
    x: 1073741824,
    y: 0,
    z: 0,
};

// 1. An angle of the catalogue with its motion.
fn moved(t: Tt, angle: i64, motion: i32) -> i64
    requires { MotionFits t angle motion }
    ensures { result ≡ rule.moved t angle motion }
{
    angle + rounding::rnd_product_quotient(t.0, i64::from(motion), YEAR)
}

// 2. The direction of a right ascension and a declination, which may lie past the pole.
fn directed(ra: i64, declination: i64) -> Direction
    requires { AnglesFit ra declination }
    ensures { result ≡ rule.directed ra declination }
{
    let raised = turning::turn_by(AHEAD, 2, circle::pair(-declination % CIRCLE));
    turning::turn_by(raised, 3, circle::pair(ra % CIRCLE))
}

// That the direction is accepted stays a clause of each step: a type would be made and unmade at
// every turn.

// Steps 3, 5 and 6 each call `turning::turn_by` by themselves. One function over a row of axes with
// their pairs, as a loop or a fold, was tried in a sketch that LLVM built: the eight turns of a
// place took 9 to 170 instructions more.

// 3. Precession.
fn precessed(n: ReadyNight, v: Direction) -> Direction
    requires { Accepted (squares v) }
    ensures { result ≡ rule.precessed n v }
{
    let zeta = n.night.zeta;
    let minus_theta = n.night.minus_theta;
    let z = n.night.z;
    turning::turn_by(
        turning::turn_by(turning::turn_by(v, 3, zeta), 2, minus_theta),
        3,
        z,
    )
}

// 4. Aberration.
fn aberrated(n: ReadyNight, v: Direction) -> Direction
    requires { Accepted (squares v) }
    ensures { result ≡ rule.aberrated n v }
{
    let a = n.night.aberration;
    length::brought(sum(v, a))
}

// Part by part, without a return to length.
fn sum(v: Direction, a: Direction) -> Direction
    requires direction_fits { PartsLe (2 ^ 60) v }
    requires aberration_fits { PartsLe (2 ^ 60) a }
    ensures { result ≡ plus v a }
{
    Direction {
        x: v.x + a.x,
        y: v.y + a.y,
        z: v.z + a.z,
    }
}

// 5. Nutation.
fn nutated(n: ReadyNight, v: Direction) -> Direction
    requires { Accepted (squares v) }
    ensures { result ≡ rule.nutated n v }
{
    let minus_epsilon = n.night.minus_epsilon;
    let delta_psi = n.night.delta_psi;
    let true_epsilon = n.night.true_epsilon;
    turning::turn_by(
        turning::turn_by(turning::turn_by(v, 1, minus_epsilon), 3, delta_psi),
        1,
        true_epsilon,
    )
}

// The apparent direction of a star, after steps 1 to 5. Night and star stay two, here and above:
// one night serves all stars.
pub fn apparent(n: ReadyNight, s: Star) -> Direction
    requires { star_refused s ≡ false }
    ensures value { result ≡ rule.apparent n s }
    ensures accepted { Accepted (squares result) }
{
    let t = n.night.tt;
    let v = directed(
        moved(t, s.ra, s.ra_motion),
        moved(t, s.declination, s.declination_motion),
    );
    nutated(n, aberrated(n, precessed(n, v)))
}

// 6. The direction seen from the site: z to the zenith, x to the south, y to the east.
pub fn overhead(n: ReadyNight, v: Direction) -> Direction
    requires { Accepted (squares v) }
    ensures value { result ≡ rule.overhead n v }
    ensures accepted { Accepted (squares result) }
{
    let minus_sidereal = n.night.minus_sidereal;
    let latitude_less_quarter = n.night.latitude_less_quarter;
    turning::turn_by(
        turning::turn_by(v, 3, minus_sidereal),
        2,
        latitude_less_quarter,
    )
}

// 5. Right ascension from (x, y) and declination; 6. azimuth from (-x, y) and altitude.
pub fn readings(v: Direction, w: Direction) -> Place
    requires apparent_accepted { Accepted (squares v) }
    requires overhead_accepted { Accepted (squares w) }
    ensures { result ≡ rule.readings v w }
{
    Place {
        ra: read(v.x, v.y),
        declination: reading::height(v),
        azimuth: read(-w.x, w.y),
        altitude: reading::height(w),
    }
}

// The reading of two parts of an accepted direction, which 32 bits hold.
fn read(h: i64, v: i64) -> Option<i64>
    requires { PartsFit h v }
    ensures { result ≡ readings.reading h v }
{
    reading::reading(h as i32, v as i32)
}
