// The answer of a place, as C gets it.

ghost use Rattle.std.specs.Prelude.{◌≡◌};
ghost use Rattle.rules.specs.Answers.{placed_answer};
ghost use Rattle.answers.specs.Answers.{placed_out};

use marks::{has_angle, or_nought};
use rules::{Place, Refusal};

// A Result for C: the refusal's number and noughts, or 0 and the place in µas. A flag is 1 where
// there is an angle, and 0, with nought in its place, where there is none.
#[repr(C)]
#[derive(Clone, Copy, Default)]
pub struct TurbelicusPlaced {
    pub refused: i64,
    pub ra: i64,
    pub declination: i64,
    pub azimuth: i64,
    pub altitude: i64,
    pub has_ra: i32,
    pub has_azimuth: i32,
}

impl From<Result<Place, Refusal>> for TurbelicusPlaced {
    ghost from_gives = { λ a b. b ≡ placed_out (placed_answer a) };

    fn from(a: Result<Place, Refusal>) -> TurbelicusPlaced {
        match a {
            Ok(p) => TurbelicusPlaced {
                refused: 0,
                ra: or_nought(p.ra),
                declination: p.declination,
                azimuth: or_nought(p.azimuth),
                altitude: p.altitude,
                has_ra: i32::from(has_angle(p.ra)),
                has_azimuth: i32::from(has_angle(p.azimuth)),
            },
            Err(r) => TurbelicusPlaced {
                refused: refusals::number(r),
                ..Default::default()
            },
        }
    }
}
