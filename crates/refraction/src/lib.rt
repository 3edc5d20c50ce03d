#![tactic(auto)]

// The lift of a star by the air, docs/RULES.md, "Refraction": Sæmundsson's formula in whole
// numbers. Angles are in µas, pressures and temperatures in tenths.

ghost use Rattle.std.specs.Prelude.{true, ◌≡◌};
ghost use Rattle.rules.specs.Refraction as rule;
ghost use Rattle.laws.specs.Weather.{FieldsInRange};
ghost use Rattle.laws.specs.Refraction.{Air, Weighed};

use circle::pair;
use rounding::{rnd_product_quotient, rnd_quotient};
use rules::Weather;
use units::QUARTER;
use weather::tenths;
use whole::is_between;

pub mod observed;

// The lowest altitude that is lifted.
const FLOOR: i64 = -3600000000;

// g: the altitude with a first lift added.
//
// The dividend passes the word: it is 133,488,000,000 × 1,000,000,000, carried in parts.
fn argument(h: i64) -> i64
    requires { rule.is_lifted h ≡ true }
    ensures { result ≡ rule.argument h }
{
    h + rnd_product_quotient(133488000000, 1000000000, h + 18396000000)
}

// The lift before the weather; the sine of g is above nought.
fn standard_lift(h: i64) -> i64
    requires { rule.is_lifted h ≡ true }
    ensures { result ≡ rule.standard_lift h }
{
    let p = pair(argument(h));
    rnd_quotient(61200000 * p.cosine, p.sine).max(0)
}

// A lift in the weather: the product is carried whole, below 2^57.
fn in_weather(l: i64, p: i64, t: i64) -> i64
    requires { Weighed l p t }
    ensures { result ≡ rule.in_weather l p t }
{
    rnd_quotient(l * p * 2830, 10100 * (2730 + t))
}

// The lift of an altitude, by the tenths of pressure and temperature.
//
// Given: h, any; p from 5,000 to 11,000 and t from -500 to 500.
// Returned: from 0 to 4,600,000,000; 0 below -3,600,000,000, and for what no place gives.
// Rule: docs/RULES.md, "Refraction".
pub fn lift_at(h: i64, p: i64, t: i64) -> i64
    requires { Air p t }
    ensures { result ≡ rule.lift_at p t h }
{
    if !is_between(FLOOR, QUARTER, h) {
        return 0;
    }
    in_weather(standard_lift(h), p, t)
}

// The lift of an altitude, by the record: 0 until both readings have come. Altitude and record stay
// two: the altitude is a place's, the record C's.
fn lift(h: i64, w: Weather) -> i64
    requires { FieldsInRange w }
    ensures { result ≡ rule.lift w h }
{
    if w.has_pressure && w.has_temperature {
        return lift_at(h, tenths(w.pressure), tenths(w.temperature));
    }
    0
}
