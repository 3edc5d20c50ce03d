#![tactic(auto)]

// Rnd of a quotient, document 01's one rounding. No sum or product on the way passes an i64.

ghost use Rattle.std.specs.Prelude.{◌≡◌, ◌≤◌, ◌<◌, ◌^◌, ℤ, pos, nat_abs, ◌*ℤ◌, ◌<ℤ◌};
ghost use Rattle.std.specs.Int.Signed.{quot_z};
ghost use Rattle.rules.specs.Units.{unit};
ghost use Rattle.rules.specs.Rounding.{rnd};
ghost use Rattle.laws.specs.Product.{ProductFits};
ghost use Rattle.rounding.specs.Given.{most_dividend};

// A digit of a carried product, and the same twice.
const DIGIT: i64 = 1048576;

const TWO_DIGITS: i64 = 1099511627776;

// Half of 2^30.
const HALF_UNIT: i64 = 536870912;

// Rnd(a / b): the nearest whole number, halves away from zero.
//
// Given: a, any; b from 1 to 2^62.
// Returned: Rnd(a / b), no larger in size than a.
// Rule: docs/RULES.md, "Numbers, angles, instants".
//
// What is asked of b stands with each function, and not in a type: its callers would wrap and
// unwrap the constants that they divide by.
//
// Both operators go toward zero and keep the sign of a, so there is no case on signs. The text-book
// (2 * a + b) / (2 * b) would pass the word from a = 2^62 up.
pub fn rnd_quotient(a: i64, b: i64) -> i64
    requires pos_bound { pos 0 <ℤ b }
    requires b_bound { nat_abs b ≤ 2 ^ 62 }
    ensures { result ≡ rnd a (nat_abs b) }
{
    a / b + one_away(a % b, b)
}

// From the quotient toward zero to the nearest: 1 or -1 where the rest is half of b or more, 0
// where it is less.
fn one_away(rest: i64, b: i64) -> i64
    requires pos_bound { pos 0 <ℤ b }
    requires b_bound { nat_abs b ≤ 2 ^ 62 }
    requires rest_bound { nat_abs rest < nat_abs b }
    ensures { result ≡ quot_z (pos 2 *ℤ rest) b }
{
    2 * rest / b
}

// Rnd(a / b) of a dividend that leaves room in the word: one division.
//
// Given: a, to 2^62 in size; b from 1 to 2^62.
// Returned: Rnd(a / b), no larger in size than a.
// Rule: docs/RULES.md, "Numbers, angles, instants".
//
// Half of b is added away from zero, and the operator goes back toward zero.
pub fn rnd_short_quotient(a: i64, b: i64) -> i64
    requires a_bound { nat_abs a ≤ most_dividend }
    requires pos_bound { pos 0 <ℤ b }
    requires b_bound { nat_abs b ≤ 2 ^ 62 }
    ensures { result ≡ rnd a (nat_abs b) }
{
    let half = b / 2;
    if a < 0 {
        (a - half) / b
    } else {
        (a + half) / b
    }
}

// Rnd(a / 2^30) of a dividend that leaves room in the word: no division, and no case on the sign.
//
// Given: a, to 2^62 in size.
// Returned: Rnd(a / 2^30), no larger in size than a.
// Rule: docs/RULES.md, "Numbers, angles, instants".
//
// A shift goes down: half of 2^30 is added, and one less below nought, where a half goes down too.
pub fn rnd_by_unit(a: i64) -> i64
    requires { nat_abs a ≤ most_dividend }
    ensures { result ≡ rnd a unit }
{
    (a + HALF_UNIT + (a >> 63)) >> 30
}

// Rnd(a * b / d), though a * b may pass the word.
//
// Given: what `ProductFits` asks: d from 1 to 2^42, a to 2^42 and b to 2^60 in size, the answer to
// 2^61.
// Returned: Rnd(a * b / d), to the last unit.
// Rule: docs/RULES.md, "Numbers, angles, instants": a larger product is carried in parts.
//
// As dividing by hand: b in three digits of 20 bits, what each leaves over carried to the next.
pub fn rnd_product_quotient(a: i64, b: i64, d: i64) -> i64
    requires { ProductFits a b d }
    ensures { result ≡ rnd (a *ℤ b) (nat_abs d) }
{
    let high = a * (b / TWO_DIGITS);
    let middle = high % d * DIGIT + a * (b / DIGIT % DIGIT);
    let low = middle % d * DIGIT + a * (b % DIGIT);
    (high / d * DIGIT + middle / d) * DIGIT + rnd_quotient(low, d)
}
