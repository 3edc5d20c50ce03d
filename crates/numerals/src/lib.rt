#![tactic(auto)]

// A number in decimal: whether a row of bytes is one, and its value.

ghost use Rattle.std.specs.Prelude.{◌≡◌, true, ◌≤◌, ◌<◌, ◌+◌, ◌-◌, ◌^◌, cond, length, IfSome};
ghost use Rattle.std.specs.Prelude.{pos, neg_ℤ, nat_abs};
ghost use Rattle.std.specs.List.{list_all};
ghost use Rattle.rules.specs.Numerals as rule;
ghost use Rattle.laws.specs.Lines as law;
ghost use Rattle.numerals.specs.Digits.{Spellable};
ghost use Rattle.numerals.specs.Numbers.{number_in};

pub mod fields;
pub mod tenths;

// Whether each byte is a digit.
#[tactic(auto, unfolding(rules::specs::Numerals::is_digit))]
fn all_digits(s: &[u8]) -> bool
    ensures { result ≡ list_all rule.is_digit s.now }
{
    s.iter().all(|b| b.is_ascii_digit())
}

// Whether the bytes are 1 to `most` digits. Bytes and most stay two: each kind of field has another
// most.
fn of_digits(s: &[u8], most: usize) -> bool
    ensures { result ≡ rule.of_digits most s.now }
{
    if s.is_empty() || most < s.len() {
        return false;
    }
    all_digits(s)
}

// Whether the bytes begin with a minus.
fn negative(s: &[u8]) -> bool
    ensures { result ≡ rule.negative s.now }
{
    s.starts_with(b"-")
}

// What is left of the bytes without the minus.
fn unsigned(s: &[u8]) -> &[u8]
    ensures { result.now ≡ rule.unsigned s.now }
{
    s.strip_prefix(b"-").unwrap_or(s)
}

// Whether the bytes are an optional minus, then 1 to `most` digits.
pub fn of_number(s: &[u8], most: usize) -> bool
    ensures { result ≡ rule.of_number most s.now }
{
    of_digits(unsigned(s), most)
}

// The value of a digit; 0 for what comes before the digits.
fn value(b: u8) -> i64
    ensures { result ≡ pos (b - 48) }
{
    i64::from(b.saturating_sub(b'0'))
}

// The number that a row of digits spells. By hand: `str::parse` takes text and tells the form
// again, which is told apart before.
fn spelled(s: &[u8]) -> i64
    requires { Spellable s.now }
    ensures { (result ≡ pos (rule.spelled 0 s.now))
        × (nat_abs result ≤ law.most (length s.now)) }
{
    let mut n: i64 = 0;
    for &b in s {
        n = 10 * n + value(b);
    }
    n
}

// A size with the sign that the bytes give it.
fn with_sign(s: &[u8], n: i64) -> i64
    requires { nat_abs n ≤ 10 ^ 18 }
    ensures { result ≡ cond (rule.negative s.now) (neg_ℤ n) n }
{
    if negative(s) { -n } else { n }
}

// The number that digits spell, with their sign.
pub fn signed(s: &[u8]) -> i64
    requires { Spellable (rule.unsigned s.now) }
    ensures { (result ≡ rule.signed s.now)
        × (nat_abs result ≤ law.most (length (rule.unsigned s.now))) }
{
    with_sign(s, spelled(unsigned(s)))
}

// The number that the bytes are: an optional minus, then 1 to `most` digits.
//
// Given: any bytes, and `most` up to 18.
// Returned: the number, or none where the bytes are of another form.
// Rule: specs/Numbers.antt.
pub fn parse(s: &[u8], most: usize) -> Option<i64>
    requires { most ≤ 18 }
    ensures value { result ≡ number_in most s.now }
    ensures small { IfSome result (λ n. nat_abs n < 10 ^ most) }
{
    if of_number(s, most) {
        Some(signed(s))
    } else {
        None
    }
}
