// The weather record, as C gets it: two floats and two flags.

ghost use Rattle.std.specs.Prelude.{◌≡◌};
ghost use Rattle.answers.specs.Answers.{weathered_out};

use rules::{Refusal, Weather};

// A Result for C: 0 or 14, and the record, with the reading or as it was. A flag is 1 where a
// reading has come.
#[repr(C)]
#[derive(Clone, Copy)]
pub struct TurbelicusWeathered {
    pub refused: i64,
    pub pressure: f32,
    pub temperature: f32,
    pub has_pressure: i32,
    pub has_temperature: i32,
}

impl From<Result<Weather, Weather>> for TurbelicusWeathered {
    ghost from_gives = { λ a b. b ≡ weathered_out a };

    fn from(a: Result<Weather, Weather>) -> TurbelicusWeathered {
        let (refused, w) = match a {
            Ok(w) => (0, w),
            Err(w) => (refusals::number(Refusal::Reading), w),
        };
        TurbelicusWeathered {
            refused,
            pressure: w.pressure,
            temperature: w.temperature,
            has_pressure: i32::from(w.has_pressure),
            has_temperature: i32::from(w.has_temperature),
        }
    }
}
