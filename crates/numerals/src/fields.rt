// A line of `times` read: whether its fields have their form, and the numbers in them.

ghost use Rattle.std.specs.Prelude.{◌≡◌, ◌≤◌, pos, length};
ghost use Rattle.std.specs.List.{list_all, zip};
ghost use Rattle.rules.specs.Numerals as rule;
ghost use Rattle.rules.specs.Lines.{form, line_of};

use crate::{parse, spelled};
use rules::{Date, Moment, Time};

// A 0 stands for any digit, every other byte for itself.
const FORM: [u8; 24] = *b"0000-00-00 00:00:00.000 ";

// Whether a byte is as the form's.
#[tactic(auto, unfolding(rules::specs::Numerals::alike, rules::specs::Numerals::is_digit))]
fn alike(f: u8, b: u8) -> bool
    ensures { result ≡ rule.alike f b }
{
    if f.is_ascii_digit() {
        b.is_ascii_digit()
    } else {
        f == b
    }
}

// Whether each byte is as the form's.
fn all_alike(form: &[u8], s: &[u8]) -> bool
    ensures { result ≡ list_all (λ p. rule.alike p.0 p.1) (zip form.now s.now) }
{
    form.iter().zip(s).all(|(&f, &b)| alike(f, b))
}

// Whether date and time have their form.
fn of_form(s: &[u8]) -> bool
    requires { length s.now ≡ 24 }
    ensures { result ≡ rule.of_form form s.now }
{
    all_alike(&FORM, s)
}

// The number in some bytes of a line.
fn field(digits: &[u8]) -> i32
    requires { length digits.now ≤ 4 }
    ensures { result ≡ pos (rule.spelled 0 digits.now) }
{
    spelled(digits) as i32
}

// A line without its end.
//
// Given: any bytes.
// Returned: its date, time of day and UT1-UTC; or that it is of another form.
// Rule: docs/RULES.md, "Dates".
pub fn line_of(line: &[u8]) -> Option<Moment>
    ensures { result ≡ line_of line.now }
{
    let (head, rest) = line.split_at_checked(FORM.len())?;
    if !of_form(head) {
        return None;
    }
    let ut1_minus_utc = parse(rest, 4)? as i32;
    Some(Moment {
        date: Date {
            year: field(&line[0..4]),
            month: field(&line[5..7]),
            day: field(&line[8..10]),
        },
        time: Time {
            hour: field(&line[11..13]),
            minute: field(&line[14..16]),
            second: field(&line[17..19]),
            ms: field(&line[20..23]),
        },
        ut1_minus_utc,
    })
}
