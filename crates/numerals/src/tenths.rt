// A pressure or a temperature in a word, taken in whole tenths.

ghost use Rattle.std.specs.Prelude.{◌≡◌, ◌≤◌, true, pos, nat_abs, IfSome};
ghost use Rattle.numerals.specs.Tenths as rule;

use crate::{of_digits, spelled, unsigned, value, with_sign};

// The bytes before the point and the one after it; all of them and the digit 0 where there is no
// point.
fn parts(s: &[u8]) -> (&[u8], u8)
    ensures before { result.0.now ≡ rule.before_point s.now }
    ensures after { result.1 ≡ rule.after_point s.now }
{
    match s {
        [whole @ .., b'.', tenth] => (whole, *tenth),
        _ => (s, b'0'),
    }
}

// Whether the bytes are 1 to 4 digits, and then nothing or a point and one digit.
fn of_size(s: &[u8]) -> bool
    ensures { result ≡ rule.of_size s.now }
{
    let (whole, tenth) = parts(s);
    of_digits(whole, 4) && tenth.is_ascii_digit()
}

// Whether a word is a number with at most one digit after a point.
//
// Given: any bytes.
// Returned: whether they are an optional minus, 1 to 4 digits, and then nothing or a point and one
// digit.
// Rule: specs/Tenths.antt.
pub fn of_tenths(s: &[u8]) -> bool
    ensures { result ≡ rule.of_tenths s.now }
{
    of_size(unsigned(s))
}

// 10 times the number before the point, and the digit after it.
fn size_of(s: &[u8]) -> i64
    requires { rule.of_size s.now ≡ true }
    ensures { result ≡ pos (rule.size_of s.now) }
{
    let (whole, tenth) = parts(s);
    10 * spelled(whole) + value(tenth)
}

// The number in such a word, exactly.
//
// Given: a word that `of_tenths` finds to be one.
// Returned: whole tenths, with the sign of the word.
// Rule: specs/Tenths.antt.
pub fn tenths_of(s: &[u8]) -> i64
    requires { rule.of_tenths s.now ≡ true }
    ensures { result ≡ rule.tenths_of s.now }
{
    with_sign(s, size_of(unsigned(s)))
}

// The number in a word, exactly.
//
// Given: any bytes.
// Returned: whole tenths, with the sign of the word; or none where it is of another form.
// Rule: specs/Tenths.antt.
pub fn parse(s: &[u8]) -> Option<i64>
    ensures value { result ≡ rule.tenths_in s.now }
    ensures small { IfSome result (λ n. nat_abs n ≤ 99999) }
{
    if of_tenths(s) {
        Some(tenths_of(s))
    } else {
        None
    }
}
