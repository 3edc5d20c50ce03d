// The UTC date and time of a TT instant.

ghost use Rattle.std.specs.Prelude.{◌≡◌};
ghost use Rattle.rules.specs.Answers.{clocked_answer};
ghost use Rattle.rules.specs.Utc as rule;
ghost use Rattle.answers.specs.Answers.{clocked_out};
ghost use Rattle.answers.specs.Given.{tt_of};

use answers::clocks::TurbelicusClocked;
use rules::Tt;
use utc::utc_of_tt;

// The UTC date and time of a TT instant.
//
// Given: TT in ms from J2000.0, any number.
// Returned: the one UTC date and time of day that has this TT; or refusal 20.
// Rule: docs/RULES.md, "UTC of a TT instant".
pub fn turbelicus_utc(tt: i64) -> TurbelicusClocked
    ensures { result ≡ clocked_out (clocked_answer (rule.utc_of_tt (tt_of tt))) }
{
    utc_of_tt(Tt(tt)).into()
}
