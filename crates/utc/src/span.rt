// The days of the span before a TT.

ghost use Rattle.std.specs.Prelude.{◌≡◌, pos};
ghost use Rattle.rules.specs.Utc as rule;
ghost use Rattle.laws.specs.Stretch.{InStretch};

use time_of_day::days::ms_before;

// The days of the span before the date of a TT: no day is shorter than 86,400,000 ms, and all added
// seconds are shorter than one, so it is the day that is reached without them, or the one before.
pub fn days_of_span(tt: i64) -> i64
    requires { InStretch tt }
    ensures { result ≡ pos (rule.days_of_span tt) }
{
    let count = tt + 883_655_957_816;
    let most = count / 86_400_000;
    if ms_before(most) <= count {
        most
    } else {
        most - 1
    }
}
