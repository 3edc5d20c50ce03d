#![tactic(auto)]

// Whole numbers in decimal, and lines of them: appended to a text that holds at most N bytes, or
// put at a place of lent memory. The room that each asks for stays a clause, here and in the crates
// above: it is another for each text.

ghost use Rattle.std.specs.Prelude.{◌≡◌, ◌≤◌, ◌+◌, ◌%◌, ◌++◌, ◌∷◌, nat_abs, length};
ghost use Rattle.std.proofs.lemmas.List.Edits.{sets};
ghost use Rattle.arrayvec.specs.ArrayVec.{array_vec_len};
ghost use Rattle.rules.specs.Times as rule;
ghost use Rattle.laws.specs.Decimal as law;
ghost use Rattle.decimals.specs.Refused.{refused_to};
ghost use Rattle.decimals.specs.Rooms.{held_in};

use arrayvec::ArrayVec;

// The byte of the last digit.
fn last_digit(n: i64) -> u8
    ensures { result ≡ 48 + nat_abs n % 10 }
{
    b'0' + (n % 10).abs() as u8
}

// How many digits n has: the last, and those of n / 10, whose size an i64 holds.
fn width(n: i64) -> usize
    ensures { result ≡ law.width 18 (nat_abs n) }
{
    match (n / 10).abs().checked_ilog10() {
        Some(k) => k as usize + 2,
        None => 1,
    }
}

// Appends the last k digits of n, the first of them first: they come from the last on, and are
// turned round.
pub fn append_digits<const N: usize>(n: i64, k: usize, out: &mut ArrayVec<u8, N>)
    requires { array_vec_len out.old + k ≤ N }
    ensures items { out.new.items ≡ out.old.items ++ law.last_digits k (nat_abs n) }
    ensures len { array_vec_len out.new ≡ array_vec_len out.old + k }
{
    let front = out.len();
    let mut rest = n;
    for _ in 0..k {
        out.push(last_digit(rest));
        rest /= 10;
    }
    out.as_mut_slice()[front..].reverse();
}

// Appends a byte, and then the last digits of n.
pub fn put_marked<const N: usize>(mark: u8, n: i64, digits: usize, out: &mut ArrayVec<u8, N>)
    requires { array_vec_len out.old + 1 + digits ≤ N }
    ensures items { out.new.items ≡ out.old.items ++ mark ∷ law.last_digits digits (nat_abs n) }
    ensures len { array_vec_len out.new ≡ array_vec_len out.old + 1 + digits }
{
    out.push(mark);
    append_digits(n, digits, out);
}

// Appends n. By hand: the kit's `itoa` works in u64, in which docs/RULES.md has no sum.
pub fn append<const N: usize>(n: i64, out: &mut ArrayVec<u8, N>)
    requires { array_vec_len out.old + 20 ≤ N }
    ensures items { out.new.items ≡ out.old.items ++ rule.decimal n }
    ensures short { array_vec_len out.new ≤ array_vec_len out.old + 20 }
{
    if n < 0 {
        out.push(b'-');
    }
    append_digits(n, width(n), out);
}

// Appends some bytes.
pub fn put_text<const N: usize>(text: &[u8], out: &mut ArrayVec<u8, N>)
    requires { array_vec_len out.old + length text.now ≤ N }
    ensures items { out.new.items ≡ out.old.items ++ text.now }
    ensures len { array_vec_len out.new ≡ array_vec_len out.old + length text.now }
{
    out.try_extend_from_slice(text).unwrap();
}

// Appends `refused ` and the number. The number is one: 0, of a line of another form, is no
// refusal's.
pub fn append_refused<const N: usize>(number: i64, out: &mut ArrayVec<u8, N>)
    requires { array_vec_len out.old + 28 ≤ N }
    ensures items { out.new.items ≡ out.old.items ++ refused_to number }
    ensures short { array_vec_len out.new ≤ array_vec_len out.old + 28 }
{
    put_text(b"refused ", out);
    append(number, out);
}

// `refused ` and the number, alone. The number is one: 0, of a line of another form, is no
// refusal's.
pub fn refused(number: i64) -> ArrayVec<u8, 64>
    ensures { result.items ≡ refused_to number }
{
    let mut text = ArrayVec::new();
    append_refused(number, &mut text);
    text
}

// Appends day number, UT and TT, with a space between.
pub fn append_answer<const N: usize>(day: i64, ut: i64, tt: i64, out: &mut ArrayVec<u8, N>)
    requires { array_vec_len out.old + 62 ≤ N }
    ensures items { out.new.items ≡ out.old.items ++ rule.three_numbers day ut tt }
    ensures short { array_vec_len out.new ≤ array_vec_len out.old + 62 }
{
    append(day, out);
    out.push(b' ');
    append(ut, out);
    out.push(b' ');
    append(tt, out);
}

// Puts a text that has at most N bytes, as its type says, at the front of lent memory, and answers
// its length: so C lends its room and gets the length. The answer is 0 where the memory has fewer
// than N bytes, and then it stays.
#[tactic(auto, unfolding(crate::specs::Rooms::held_in, rules::specs::Times::overlaid))]
pub fn put_front<const N: usize>(text: &ArrayVec<u8, N>, out: &mut [u8]) -> usize
    ensures value { result ≡ length (held_in N out.old text.now.items) }
    ensures out_after { out.new ≡ rule.overlaid (held_in N out.old text.now.items) out.old }
{
    if out.len() < N {
        return 0;
    }
    let n = text.len();
    out[..n].copy_from_slice(text.as_slice());
    n
}

// Puts some bytes at a place of lent memory, and answers the place after them.
pub fn put_at(text: &[u8], at: usize, out: &mut [u8]) -> usize
    requires { at + length text.now ≤ length out.old }
    ensures value { result ≡ at + length text.now }
    ensures out_after { out.new ≡ sets out.old at text.now }
{
    let end = at + text.len();
    out[at..end].copy_from_slice(text);
    end
}

// Puts the last k digits of n at a place, the last of them first. The digits themselves are put,
// and not a text of them, since k has no bound.
pub fn put_digits(n: i64, k: usize, at: usize, out: &mut [u8])
    requires { at + k ≤ length out.old }
    ensures { out.new ≡ sets out.old at (law.last_digits k (nat_abs n)) }
{
    let mut i = k;
    let mut rest = n;
    while 0 < i {
        i -= 1;
        out[at + i] = last_digit(rest);
        rest /= 10;
    }
}

// Puts n at a place, and answers the place after it.
pub fn put(n: i64, at: usize, out: &mut [u8]) -> usize
    requires { at + 20 ≤ length out.old }
    ensures value { result ≡ at + length (rule.decimal n) }
    ensures out_after { out.new ≡ sets out.old at (rule.decimal n) }
{
    let mut digits = ArrayVec::<u8, 20>::new();
    append(n, &mut digits);
    put_at(digits.as_slice(), at, out)
}

// Puts `refused ` and the number at the front, and answers how many bytes they are.
pub fn put_refused(number: i64, out: &mut [u8]) -> usize
    requires { 64 ≤ length out.old }
    ensures value { result ≡ length (refused_to number) }
    ensures out_after { out.new ≡ sets out.old 0 (refused_to number) }
{
    let line = refused(number);
    put_at(line.as_slice(), 0, out)
}

// Puts day number, UT and TT at the front, with a space between, and answers how many bytes they
// are.
pub fn put_answer(day: i64, ut: i64, tt: i64, out: &mut [u8]) -> usize
    requires { 64 ≤ length out.old }
    ensures value { result ≡ length (rule.three_numbers day ut tt) }
    ensures out_after { out.new ≡ sets out.old 0 (rule.three_numbers day ut tt) }
{
    let mut numbers = ArrayVec::<u8, 64>::new();
    append_answer(day, ut, tt, &mut numbers);
    put_at(numbers.as_slice(), 0, out)
}
