#![tactic(auto)]

// Angles for people, after a space: appended to a text, or put at a place of lent memory.

ghost use Rattle.std.specs.Prelude.{◌≡◌, ◌≤◌, ◌+◌, ◌++◌, nat_abs, length};
ghost use Rattle.std.proofs.lemmas.List.Edits.{sets};
ghost use Rattle.arrayvec.specs.ArrayVec.{array_vec_len};
ghost use Rattle.sexagesimal.specs.Sexagesimal.{spaced};
ghost use Rattle.sexagesimal.specs.Sexagesimal as rule;

use arrayvec::ArrayVec;
use decimals::{append_digits, put_at, put_marked};
use rounding::rnd_quotient;
use whole::modulo_of;

// Whole seconds: hours or degrees in `width` digits, minutes, seconds.
fn put_clock<const N: usize>(seconds: i64, width: usize, out: &mut ArrayVec<u8, N>)
    requires { array_vec_len out.old + width + 6 ≤ N }
    ensures items { out.new.items ≡ out.old.items ++ rule.clock width (nat_abs seconds) }
    ensures len { array_vec_len out.new ≡ array_vec_len out.old + width + 6 }
{
    append_digits(seconds / 3600, width, out);
    put_marked(b':', seconds / 60 % 60, 2, out);
    put_marked(b':', seconds % 60, 2, out);
}

// Whole seconds, and then the last digits of n after a point.
fn put_parts<const N: usize>(
    width: usize,
    seconds: i64,
    digits: usize,
    n: i64,
    out: &mut ArrayVec<u8, N>,
)
    requires { array_vec_len out.old + width + 7 + digits ≤ N }
    ensures items { out.new.items
        ≡ out.old.items ++ rule.sexagesimal width (nat_abs seconds) digits (nat_abs n) }
    ensures len { array_vec_len out.new ≡ array_vec_len out.old + width + 7 + digits }
{
    put_clock(seconds, width, out);
    put_marked(b'.', n, digits, out);
}

// Right ascension. Its like is `append_bearing`, which says why they are two.
pub fn append_hours<const N: usize>(angle: i64, out: &mut ArrayVec<u8, N>)
    requires { array_vec_len out.old + 12 ≤ N }
    ensures items { out.new.items ≡ out.old.items ++ spaced (rule.hours angle) }
    ensures len { array_vec_len out.new ≡ array_vec_len out.old + 12 }
{
    let n = modulo_of(rnd_quotient(angle, 150000), 8640000);
    out.push(b' ');
    put_parts(2, n / 100, 2, n, out);
}

// Azimuth. One function of this and `append_hours` would take five numbers more, which only their
// order tells apart; what both share is `put_parts`.
pub fn append_bearing<const N: usize>(angle: i64, out: &mut ArrayVec<u8, N>)
    requires { array_vec_len out.old + 12 ≤ N }
    ensures items { out.new.items ≡ out.old.items ++ spaced (rule.bearing angle) }
    ensures len { array_vec_len out.new ≡ array_vec_len out.old + 12 }
{
    let n = modulo_of(rnd_quotient(angle, 100000), 12960000);
    out.push(b' ');
    put_parts(3, n / 10, 1, n, out);
}

// The sign of a number; nought has a plus.
fn sign_of(n: i64) -> u8
    ensures { result ≡ rule.sign_of n }
{
    if n < 0 { b'-' } else { b'+' }
}

// Declination or altitude.
pub fn append_elevation<const N: usize>(angle: i64, out: &mut ArrayVec<u8, N>)
    requires { array_vec_len out.old + 12 ≤ N }
    ensures items { out.new.items ≡ out.old.items ++ spaced (rule.elevation angle) }
    ensures len { array_vec_len out.new ≡ array_vec_len out.old + 12 }
{
    let n = rnd_quotient(angle, 100000);
    out.push(b' ');
    out.push(sign_of(n));
    put_parts(2, n / 10, 1, n, out);
}

// Right ascension, put at a place; the place after it.
pub fn put_hours(angle: i64, at: usize, out: &mut [u8]) -> usize
    requires { at + 13 ≤ length out.old }
    ensures value { result ≡ at + length (spaced (rule.hours angle)) }
    ensures out_after { out.new ≡ sets out.old at (spaced (rule.hours angle)) }
{
    let mut hours = ArrayVec::<u8, 13>::new();
    append_hours(angle, &mut hours);
    put_at(hours.as_slice(), at, out)
}

// Azimuth, put at a place; the place after it.
pub fn put_bearing(angle: i64, at: usize, out: &mut [u8]) -> usize
    requires { at + 13 ≤ length out.old }
    ensures value { result ≡ at + length (spaced (rule.bearing angle)) }
    ensures out_after { out.new ≡ sets out.old at (spaced (rule.bearing angle)) }
{
    let mut bearing = ArrayVec::<u8, 13>::new();
    append_bearing(angle, &mut bearing);
    put_at(bearing.as_slice(), at, out)
}

// Declination or altitude, put at a place; the place after it.
pub fn put_elevation(angle: i64, at: usize, out: &mut [u8]) -> usize
    requires { at + 14 ≤ length out.old }
    ensures value { result ≡ at + length (spaced (rule.elevation angle)) }
    ensures out_after { out.new ≡ sets out.old at (spaced (rule.elevation angle)) }
{
    let mut elevation = ArrayVec::<u8, 14>::new();
    append_elevation(angle, &mut elevation);
    put_at(elevation.as_slice(), at, out)
}
