#![tactic(auto)]

// UTC of a TT instant, docs/RULES.md, "UTC of a TT instant".

ghost use Rattle.std.specs.Prelude.{◌≡◌};
ghost use Rattle.rules.specs.Utc as rule;
ghost use Rattle.laws.specs.Stretch.{InStretch};

use crate::clock::time_of_ms;
use crate::span::days_of_span;
use calendar::counts::date_at;
use rules::{Refusal, Tt, Utc};
use time_of_day::days::ms_before;
use whole::is_between;

mod clock;
mod span;

// The UTC time of a TT of the stretch.
fn utc_at(tt: i64) -> Utc
    requires { InStretch tt }
    ensures { result ≡ rule.utc_at tt }
{
    let days = days_of_span(tt);
    let ms = tt + 883_655_957_816 - ms_before(days);
    Utc {
        date: date_at(days),
        time: time_of_ms(ms),
    }
}

// The UTC date and time of a TT instant.
//
// Given: any number.
// Returned: the one UTC time that has this TT, with second 60 where it belongs; or refusal 20.
// Rule: docs/RULES.md, "UTC of a TT instant". UT1-UTC plays no part.
pub fn utc_of_tt(tt: Tt) -> Result<Utc, Refusal>
    ensures { result ≡ rule.utc_of_tt tt }
{
    if !is_between(-883_655_957_816, 3_155_716_869_183, tt.0) {
        return Err(Refusal::Stretch);
    }
    Ok(utc_at(tt.0))
}
