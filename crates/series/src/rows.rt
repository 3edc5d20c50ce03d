// The two rows of docs/RULES.md, "Sine and cosine", worked stage by stage. All is in parts of 2^30.
//
// `UpTo` stays a clause, here and in `circle`, `arcs` and `reading`: it has five bounds, and a type
// of each would be made and unmade between two steps of a formula, so it would be no plainer.

ghost use Rattle.std.specs.Prelude.{◌≡◌, map, pos, nat_abs};
ghost use Rattle.rules.specs.Units.{unit};
ghost use Rattle.rules.specs.Circle as rule;
ghost use Rattle.laws.specs.UpTo.{UpTo};
ghost use Rattle.series.specs.Given.{StageGiven, RowGiven};

use units::UNIT;

// p = 2^30 - Rnd(w p / (2^30 k)).
fn stage(w: i64, k: i64, p: i64) -> i64
    requires { StageGiven w k p }
    ensures { result ≡ rule.stage w (nat_abs k) p }
{
    UNIT - rounding::rnd_short_quotient(w * p, UNIT * k)
}

// A row, stage by stage, from 2^30. What it shares with `arcs::arc_factor` is the `for` over the
// row: the stage and where it begins are each one's own.
fn stages<const N: usize>(w: i64, row: [i64; N]) -> i64
    requires { RowGiven w row }
    ensures { result ≡ rule.stages w (map nat_abs row.entry) (pos unit) }
{
    let mut p = UNIT;
    for k in &row {
        p = stage(w, *k, p);
    }
    p
}

// The sine's row, k = 11 * 10, 9 * 8, .., 3 * 2: the sine over x.
pub fn sine_factor(w: i64) -> i64
    requires { UpTo w unit }
    ensures { result ≡ rule.stages w rule.sine_row (pos unit) }
{
    stages(w, [110, 72, 42, 20, 6])
}

// The cosine's row, k = 12 * 11, 10 * 9, .., 2 * 1: the cosine.
pub fn raw_cosine(w: i64) -> i64
    requires { UpTo w unit }
    ensures { result ≡ rule.stages w rule.cosine_row (pos unit) }
{
    stages(w, [132, 90, 56, 30, 12, 2])
}
