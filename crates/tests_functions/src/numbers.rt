// The whole-number work of the crates `whole`, `rounding` and `roots`.

ghost use Rattle.std.specs.Prelude.{◌≡◌, pos, is_some, unwrap_or};
ghost use Rattle.tests_functions.specs.Numbers.{tried, rnd_quotient_tried};
ghost use Rattle.tests_functions.specs.Numbers.{rnd_product_quotient_tried, product_tried};
ghost use Rattle.tests_functions.specs.Numbers.{whole_root_tried, on_circle_tried};

// An Option for C, what a rule gives: met is 1 and value its answer where its conditions hold, else
// both are 0.
#[repr(C)]
#[derive(Clone, Copy)]
pub struct Tried {
    pub met: i64,
    pub value: i64,
}

impl From<Option<i64>> for Tried {
    ghost from_gives = { λ a b. b ≡ tried (is_some a) (unwrap_or a (pos 0)) };

    fn from(a: Option<i64>) -> Tried {
        Tried {
            met: i64::from(a.is_some()),
            value: a.unwrap_or(0),
        }
    }
}

// 2^42, 2^60, 2^61, 2^62.
const MOST_A: i64 = 4398046511104;

const MOST_B: i64 = 1152921504606846976;

const MOST_RESULT: i64 = 2305843009213693952;

const MOST_DIVISOR: i64 = 4611686018427387904;

// Rnd(a / b), for b from 1 to 2^62.
pub fn tests_rnd_quotient(a: i64, b: i64) -> Tried
    ensures { result ≡ rnd_quotient_tried a b }
{
    let is_met = whole::is_between(1, MOST_DIVISOR, b);
    is_met.then(|| rounding::rnd_quotient(a, b)).into()
}

// The whole root of n, for n not negative.
pub fn tests_whole_root(n: i64) -> Tried
    ensures { result ≡ whole_root_tried n }
{
    (n >= 0).then(|| roots::whole_root(n)).into()
}

// a modulo C.
#[tactic(auto, unfolding(crate::specs::Numbers::tried, crate::specs::Numbers::on_circle_tried))]
pub fn tests_on_circle(a: i64) -> Tried
    ensures { result ≡ on_circle_tried a }
{
    Some(whole::on_circle(a)).into()
}

// Rnd(a * b / d), for d from 1 to 2^42, a to 2^42 and b to 2^60 in size, b to 2^61 / (|a / d| + 1)
// too.
pub fn tests_rnd_product_quotient(a: i64, b: i64, d: i64) -> Tried
    ensures { result ≡ rnd_product_quotient_tried a b d }
{
    let is_met = product_fits(a, b, d);
    is_met
        .then(|| rounding::rnd_product_quotient(a, b, d))
        .into()
}

// Whether the conditions of the carried product hold.
fn product_fits(a: i64, b: i64, d: i64) -> bool
    ensures { result ≡ product_tried a b d }
{
    if !whole::is_between(1, MOST_A, d) {
        return false;
    }
    if !whole::is_between(-MOST_A, MOST_A, a) {
        return false;
    }
    if !whole::is_between(-MOST_B, MOST_B, b) {
        return false;
    }
    let most = MOST_RESULT / (whole::size_of(a / d) + 1);
    whole::is_between(-most, most, b)
}
