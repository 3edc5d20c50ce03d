// The whole-number work of the crates `whole`, `rounding` and `roots`.

ghost use Rattle.std.specs.Prelude.{◌≡◌};
ghost use Rattle.tests_functions.specs.Numbers.{rnd_quotient_tried, rnd_product_quotient_tried};
ghost use Rattle.tests_functions.specs.Numbers.{whole_root_tried, on_circle_tried};

use tests_functions::numbers::Tried;

// Rnd(a / b), for b from 1 to 2^62.
#[unsafe(no_mangle)]
pub extern "C" fn tests_rnd_quotient(a: i64, b: i64) -> Tried
    ensures { result ≡ rnd_quotient_tried a b }
{
    tests_functions::numbers::tests_rnd_quotient(a, b)
}

// The whole root of n, for n not negative.
#[unsafe(no_mangle)]
pub extern "C" fn tests_whole_root(n: i64) -> Tried
    ensures { result ≡ whole_root_tried n }
{
    tests_functions::numbers::tests_whole_root(n)
}

// a modulo C.
#[unsafe(no_mangle)]
pub extern "C" fn tests_on_circle(a: i64) -> Tried
    ensures { result ≡ on_circle_tried a }
{
    tests_functions::numbers::tests_on_circle(a)
}

// Rnd(a * b / d), for d from 1 to 2^42, a to 2^42 and b to 2^60 in size, b to 2^61 / (|a / d| + 1)
// too.
#[unsafe(no_mangle)]
pub extern "C" fn tests_rnd_product_quotient(a: i64, b: i64, d: i64) -> Tried
    ensures { result ≡ rnd_product_quotient_tried a b d }
{
    tests_functions::numbers::tests_rnd_product_quotient(a, b, d)
}
