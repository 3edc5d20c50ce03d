#![tactic(auto)]

// Signed and unsigned numbers in bytes, little-endian.

ghost use Rattle.std.specs.Prelude.{◌≡◌, length, ◌+◌, ◌-◌, ◌*◌, ◌<◌, ◌≤◌, ◌^◌};
ghost use Rattle.std.specs.Int.Signed.{mag};
ghost use Rattle.rules.specs.Rounding.{modulo};
ghost use Rattle.rules.specs.Bytes.{unsigned_at, signed_at};
ghost use Rattle.laws.specs.ByteByByte.{sign_of, below, low_bytes};

// -1 where a last byte carries a minus, else 0. By a test: a cast is no plainer, and with it LLVM
// joins the bytes into no load of a word.
fn sign_of(b: u8) -> i64
    ensures { result ≡ sign_of b }
{
    if b < 128 { 0 } else { -1 }
}

// A byte below a number.
fn joined(b: u8, z: i64) -> i64
    requires { mag z < 2 ^ 55 }
    ensures { result ≡ below b z }
{
    z * 256 + i64::from(b)
}

// The signed number in one to eight bytes: from the last, which has the sign, down. By hand, as the
// contract takes each of these widths and `from_le_bytes` one.
pub fn number_in(bytes: &[u8]) -> i64
    requires { (0 < length bytes.now) × (length bytes.now ≤ 8) }
    ensures { (result ≡ signed_at 0 (length bytes.now) bytes.now)
        × (mag result < 128 * 256 ^ (length bytes.now - 1)) }
{
    let last = bytes.len() - 1;
    let mut v = joined(bytes[last], sign_of(bytes[last]));
    for b in bytes[..last].iter().rev() {
        v = joined(*b, v);
    }
    v
}

// The number without a sign in the two bytes that the bytes begin with.
pub fn word_in(bytes: &[u8]) -> u16
    requires { 2 ≤ length bytes.now }
    ensures { result ≡ unsigned_at 0 2 bytes.now }
{
    u16::from_le_bytes([bytes[0], bytes[1]])
}

// The lowest byte of a number in two's complement.
fn low_byte(z: i64) -> u8
    ensures { result ≡ modulo z 256 }
{
    (z & 255) as u8
}

// A number into all bytes of `room`, from its lowest byte up. By hand, as the contract takes any
// width and `to_le_bytes` one.
pub fn put_number(room: &mut [u8], z: i64)
    ensures { room.new ≡ low_bytes (length room.old) z }
{
    let mut v = z;
    for b in room.iter_mut() {
        *b = low_byte(v);
        v >>= 8;
    }
}
