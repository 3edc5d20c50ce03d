// A UTC time, or its refusal, as a text.

ghost use Rattle.std.specs.Prelude.{◌≡◌, ◌+◌, ◌≤◌, ◌++◌};
ghost use Rattle.arrayvec.specs.ArrayVec.{array_vec_len};
ghost use Rattle.line_dates.specs.DateLines as rule;

use arrayvec::ArrayVec;
use decimals::{append_digits, put_marked, refused};
use rules::{Date, Refusal, Time, Utc};

// `YYYY-MM-DD`.
fn put_date(date: Date, out: &mut ArrayVec<u8, 64>)
    requires { array_vec_len out.old + 10 ≤ 64 }
    ensures items { out.new.items ≡ out.old.items ++ rule.date_text date }
    ensures len { array_vec_len out.new ≡ array_vec_len out.old + 10 }
{
    append_digits(i64::from(date.year), 4, out);
    put_marked(b'-', i64::from(date.month), 2, out);
    put_marked(b'-', i64::from(date.day), 2, out);
}

// A space and `hh:mm:ss.mmm`.
fn put_time(time: Time, out: &mut ArrayVec<u8, 64>)
    requires { array_vec_len out.old + 13 ≤ 64 }
    ensures { out.new.items ≡ out.old.items ++ rule.time_text time }
{
    put_marked(b' ', i64::from(time.hour), 2, out);
    put_marked(b':', i64::from(time.minute), 2, out);
    put_marked(b':', i64::from(time.second), 2, out);
    put_marked(b'.', i64::from(time.ms), 3, out);
}

// A UTC time.
fn utc_text(utc: Utc) -> ArrayVec<u8, 64>
    ensures { result.items ≡ rule.utc_text utc }
{
    let mut text = ArrayVec::new();
    put_date(utc.date, &mut text);
    put_time(utc.time, &mut text);
    text
}

// A UTC time, or the refusal.
pub fn clocked_text(clocked: Result<Utc, Refusal>) -> ArrayVec<u8, 64>
    ensures { result.items ≡ rule.clocked_text clocked }
{
    match clocked {
        Ok(utc) => utc_text(utc),
        Err(r) => refused(refusals::number(r)),
    }
}
