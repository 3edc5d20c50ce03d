#![tactic(auto)]

// The whole root, downward. No sum or product on the way passes an i64.

ghost use Rattle.std.specs.Prelude.{◌≡◌, ℤ, pos, nat_abs, ◌≤ℤ◌};
ghost use Rattle.rules.specs.Length.{root, kept};
ghost use Rattle.rules.specs.ManualRoot.{first_power};
ghost use Rattle.roots.specs.NearSquare.{NearSquare};
ghost use Rattle.roots.specs.Trials.{Trial, Begun, Stepped};

use units::UNIT;
use whole::is_between;

// One more than the root of the largest i64.
const ROOTS: i64 = 3037000500;

// 2^31: near 2^60 a square goes up by nearly as much to the next.
const SQUARE_STEP: i64 = 2147483648;

// How near to 2^30 a root is: as the lengths of pairs and of turned directions are, and as those
// after aberration are. Of each the least and the largest number with such a root.
const NEAR: i64 = 64;

const NEAR_LEAST: i64 = 1152921367167897600;

const NEAR_LARGEST: i64 = 1152921642045804543;

const ABERRATED: i64 = 262144;

const ABERRATED_LEAST: i64 = 1152358623372902400;

const ABERRATED_LARGEST: i64 = 1153484523279745023;

// The whole root, downward, worked as the service manual does: that way is the customer's, so the
// library's `isqrt` does not stand here (docs/changes).
//
// Given: n, not negative.
// Returned: the largest number whose square is at most n.
// Rule: docs/RULES.md, "Sine and cosine".
//
// Powers of two are tried from the first one down, as many as the root has binary digits. The trial
// is the root so far and the power; the power is kept where the square of the trial is not above n.
// The root of 90: of 64 binary digits 57 are leading zeros, so 90 has 7, its root has 4, and the
// first power is 8.
//
//     power   trial        its square
//         8   0 + 8 =  8    64, not above 90: kept
//         4   8 + 4 = 12   144, above
//         2   8 + 2 = 10   100, above
//         1   8 + 1 =  9    81, not above 90: kept, and the root is 9
//
// The root of 0 is 0, with no trial.
pub fn whole_root(n: i64) -> i64
    requires { pos 0 ≤ℤ n }
    ensures { result ≡ pos (root (nat_abs n)) }
{
    root_from(n, 0, first_power(n))
}

// The first power of two that is tried, from the number of leading zeros; 0 where none is. That n
// is not negative stays a clause, here and above: the type that says so is u64, in which nothing is
// summed here.
fn first_power(n: i64) -> i64
    requires { pos 0 ≤ℤ n }
    ensures { result ≡ pos (first_power (nat_abs n)) }
{
    // the language counts leading zeros of unsigned numbers alone; no sum is formed there
    let word = n as u64;
    let digits = 64 - i64::from(word.leading_zeros());
    let root_digits = (digits + 1) / 2;
    (1 << root_digits) / 2
}

// The trials from one power of two down to 1, the root so far being `begun`. No `for`: nothing is
// counted, the power is halved until none is left.
fn root_from(n: i64, begun: i64, first: i64) -> i64
    requires { Begun n begun first }
    ensures { result ≡ pos (root (nat_abs n)) }
{
    let mut low = begun;
    let mut power = first;
    while 0 < power {
        low = kept_of(n, low, power);
        power = power / 2;
    }
    low
}

// The root so far after one more power of two: the trial, where its square is not above n.
fn kept_of(n: i64, low: i64, power: i64) -> i64
    requires { Trial n low power }
    ensures { result ≡ pos (kept (nat_abs n) (nat_abs low) (nat_abs power)) }
{
    let trial = low + power;
    // from ROOTS on the square is above n, and passes an i64
    if trial < ROOTS && trial * trial <= n {
        trial
    } else {
        low
    }
}

// The whole root of a squared length, downward: a short cut in front of `whole_root`. It is here
// because the lengths of a place are near 2^30, where all but the last trials can be left out.
//
// Given: n, not negative.
// Returned: the largest number whose square is at most n.
// Rule: docs/RULES.md, "Sine and cosine".
#[tactic(auto, unfolding(rules::specs::Units::between))]
pub fn length_root(n: i64) -> i64
    requires { pos 0 ≤ℤ n }
    ensures { result ≡ pos (root (nat_abs n)) }
{
    // no `match` of the two ranges: a place takes more instructions by it
    if is_between(NEAR_LEAST, NEAR_LARGEST, n) {
        near_root(n)
    } else if is_between(ABERRATED_LEAST, ABERRATED_LARGEST, n) {
        stepped_root(n, ABERRATED, 32)
    } else {
        whole_root(n)
    }
}

// The same, without a test, of a number that is known to be near 2^60.
//
// Given: what `NearSquare` asks: n from (2^30 - 64)^2 to less than 2^38 above it.
// Returned: the largest number whose square is at most n.
// Rule: docs/RULES.md, "Sine and cosine".
pub fn near_root(n: i64) -> i64
    requires { NearSquare n }
    ensures { result ≡ pos (root (nat_abs n)) }
{
    stepped_root(n, NEAR, 1)
}

// The root of a number whose root lies within w of 2^30. As many steps of 2^31 as there are to n
// from the square of 2^30 - w give a root so far, from which the trials from `power` on are enough.
fn stepped_root(n: i64, w: i64, power: i64) -> i64
    requires { Stepped n w power }
    ensures { result ≡ pos (root (nat_abs n)) }
{
    let base = UNIT - w;
    root_from(n, base + (n - base * base) / SQUARE_STEP, power)
}
