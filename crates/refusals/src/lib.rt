#![tactic(auto)]

// The numbers of the refusals.

ghost use Rattle.std.specs.Prelude.{◌≡◌, pos};
ghost use Rattle.rules.specs.Refusals as rule;

use rules::Refusal;

// The number of a refusal.
//
// Given: why nothing is answered.
// Returned: 1 to 14, or 20.
// Rule: docs/RULES.md, "Refusal numbers".
//
// A function, and no `From`: that would have to stand in `rules`, which holds definitions alone.
#[tactic(auto, unfolding(rules::specs::Refusals::number))]
pub fn number(r: Refusal) -> i64
    ensures { result ≡ pos (rule.number r) }
{
    r as i64
}
