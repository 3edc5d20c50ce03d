#![tactic(auto)]

// Ranges, sizes and remainders of whole numbers, which every rule of document 01 rests on.

ghost use Rattle.std.specs.Prelude.{◌≡◌, ◌≤◌, ◌^◌, ℤ, pos, nat_abs, ◌<ℤ◌};
ghost use Rattle.rules.specs.Units.{circle, between};
ghost use Rattle.rules.specs.Rounding.{modulo};

use units::CIRCLE;

// a modulo d, never negative.
//
// Given: a, any; d, above nought.
// Returned: from 0 to d - 1.
// Rule: docs/RULES.md, "Numbers, angles, instants" and "Polynomials in time".
//
// By hand: the library's `rem_euclid` forms sums in u64, which docs/RULES.md excludes.
//
// Public by this name, over the library's method: docs/PROMISES.md and `promises/OnlyOne` speak of
// it.
pub fn modulo_of(a: i64, d: i64) -> i64
    requires { pos 0 <ℤ d }
    ensures { result ≡ pos (modulo a (nat_abs d)) }
{
    let r = a % d;
    if r < 0 { r + d } else { r }
}

// An angle modulo C.
//
// Given: a, any, in µas.
// Returned: from 0 to C - 1.
// Rule: docs/RULES.md, "Sine and cosine".
pub fn on_circle(a: i64) -> i64
    ensures { result ≡ pos (modulo a circle) }
{
    modulo_of(a, CIRCLE)
}

// Whether z lies from low to high, both ends included.
//
// Given: any three numbers.
// Rule: docs/RULES.md, "Refusal numbers": every range of the refusals.
//
// Public by this name, which `promises/OnlyOne` speaks of; a range's `contains` is no plainer.
#[tactic(auto, using(crate::proofs::Tests::le_is), unfolding(rules::specs::Units::between))]
pub fn is_between(low: i64, high: i64, z: i64) -> bool
    ensures { result ≡ between low high z }
{
    low <= z && z <= high
}

// The size of z, without its sign.
//
// Given: z, to 2^62 in size: the lowest i64 has a size that no i64 holds.
//
// Public by this name, over the library's method: docs/PROMISES.md and `promises/OnlyOne` speak of
// it.
pub fn size_of(z: i64) -> i64
    requires { nat_abs z ≤ 2 ^ 62 }
    ensures { result ≡ pos (nat_abs z) }
{
    z.abs()
}
