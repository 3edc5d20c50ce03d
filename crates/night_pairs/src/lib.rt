#![tactic(auto)]

// The pairs and the sum of which a night is made.

ghost use Rattle.std.specs.Prelude.{◌≡◌, ◌≤◌, ◌^◌, ℤ, pos, neg_ℤ, nat_abs, ◌-ℤ◌, ◌*ℤ◌};
ghost use Rattle.rules.specs.Units.{quarter, unit};
ghost use Rattle.rules.specs.Rounding.{rnd, remainder};
ghost use Rattle.rules.specs.Circle.{pair};
ghost use Rattle.rules.specs.Night as rule;
ghost use Rattle.laws.specs.Angles.{Sized};
ghost use Rattle.night_pairs.specs.Given.{ScaledFits, LocalFits};
ghost use Rattle.night_pairs.specs.Parts.{opposite, local_angle};

use polynomials::range::InRange;
use rules::{Direction, Pair, Ut};
use units::{CIRCLE, QUARTER};

// The constant of aberration, 20.49552'' (source 000, section 4.2.1), in parts of 2^30 of a radian.
const ABERRATION: i64 = 106692;

// The same times the eccentricity of the Earth's orbit.
const ECCENTRIC: i64 = 1783;

// `Sized` stays a clause of each: a type of sized pairs would be no plainer, as the callers would
// wrap what `circle::pair` answers at each call and unwrap it for the night.

// The pair of the opposite angle.
pub fn opposite_of(p: Pair) -> Pair
    requires { Sized p }
    ensures { result ≡ opposite p }
{
    Pair {
        cosine: p.cosine,
        sine: -p.sine,
    }
}

// Rnd(k * part / 2^30).
fn scaled(k: i64, part: i64) -> i64
    requires { ScaledFits k part }
    ensures { result ≡ rnd (k *ℤ part) unit }
{
    rounding::rnd_by_unit(k * part)
}

// 4. What aberration adds, of the pairs of the Sun's longitude, of ϖ and of ε.
pub fn aberration(s: Pair, p: Pair, e: Pair) -> Direction
    requires sun_sized { Sized s }
    requires perihelion_sized { Sized p }
    requires obliquity_sized { Sized e }
    ensures { result ≡ rule.aberration s p e }
{
    let by = aberration_y(s, p);
    Direction {
        x: aberration_x(s, p),
        y: scaled(by, e.cosine),
        z: scaled(by, e.sine),
    }
}

// 4. bx, of the pairs of the Sun's longitude and of ϖ.
pub fn aberration_x(s: Pair, p: Pair) -> i64
    requires sun_sized { Sized s }
    requires perihelion_sized { Sized p }
    ensures { result ≡ rule.aberration_x s p }
{
    scaled(ABERRATION, s.sine) - scaled(ECCENTRIC, p.sine)
}

// 4. by, the same, before ε.
pub fn aberration_y(s: Pair, p: Pair) -> i64
    requires sun_sized { Sized s }
    requires perihelion_sized { Sized p }
    ensures { result ≡ rule.aberration_y s p }
{
    -scaled(ABERRATION, s.cosine) + scaled(ECCENTRIC, p.cosine)
}

// 6. The pair of minus the local sidereal angle: Δψ, the cosine of ε, the site's longitude.
pub fn sidereal_pair(ut: InRange<Ut>, nutation: i64, cosine: i64, longitude: i64) -> Pair
    requires { LocalFits nutation cosine longitude }
    ensures { result ≡ pair (remainder (neg_ℤ (local_angle ut nutation cosine longitude))) }
{
    let local = sidereal::sidereal_of(ut) + scaled(nutation, cosine) + longitude;
    circle::pair(-local % CIRCLE)
}

// 6. The pair of latitude - quarter.
pub fn latitude_pair(latitude: i64) -> Pair
    requires { nat_abs latitude ≤ 2 ^ 60 }
    ensures { result ≡ pair (remainder (latitude -ℤ pos quarter)) }
{
    circle::pair((latitude - QUARTER) % CIRCLE)
}
