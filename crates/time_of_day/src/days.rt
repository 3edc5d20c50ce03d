// The days of the span, in ms.

ghost use Rattle.std.specs.Prelude.{◌≡◌, pos, nat_abs};
ghost use Rattle.laws.specs.Ranges.{InRange};
ghost use Rattle.laws.specs.Days.{ms_before};

use crate::added_seconds::tai_minus_utc;

// The ms of so many days from the first of the span on, added seconds among them.
pub fn ms_before(days: i64) -> i64
    requires { InRange 0 46752 days }
    ensures { result ≡ pos (ms_before (nat_abs days)) }
{
    days * 86_400_000 + 1000 * (tai_minus_utc(days - 10227) - 10)
}
