// The answer of a UTC date and time, as C gets it.

ghost use Rattle.std.specs.Prelude.{◌≡◌};
ghost use Rattle.rules.specs.Answers.{clocked_answer};
ghost use Rattle.answers.specs.Answers.{clocked_out};

use rules::{Refusal, Utc};

// A Result for C: the refusal's number and noughts, or 0 and the UTC date and time of day. Seven
// numbers of 32 bits would leave half a word that says nothing, so ms has 64.
#[repr(C)]
#[derive(Clone, Copy, Default)]
pub struct TurbelicusClocked {
    pub refused: i64,
    pub year: i32,
    pub month: i32,
    pub day: i32,
    pub hour: i32,
    pub minute: i32,
    pub second: i32,
    pub ms: i64,
}

impl From<Result<Utc, Refusal>> for TurbelicusClocked {
    ghost from_gives = { λ a b. b ≡ clocked_out (clocked_answer a) };

    fn from(a: Result<Utc, Refusal>) -> TurbelicusClocked {
        match a {
            Ok(utc) => TurbelicusClocked {
                refused: 0,
                year: utc.date.year,
                month: utc.date.month,
                day: utc.date.day,
                hour: utc.time.hour,
                minute: utc.time.minute,
                second: utc.time.second,
                ms: i64::from(utc.time.ms),
            },
            Err(r) => TurbelicusClocked {
                refused: refusals::number(r),
                ..Default::default()
            },
        }
    }
}
