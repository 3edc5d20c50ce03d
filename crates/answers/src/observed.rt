// The answers of an observed altitude, alone and beside a place, as C gets them.

ghost use Rattle.std.specs.Prelude.{◌≡◌};
ghost use Rattle.rules.specs.Answers.{angle_answer};
ghost use Rattle.answers.specs.Answers.{altitude_out, beside_out};

use crate::numbered;
use crate::places::TurbelicusPlaced;
use rules::Refusal;

// A Result for C: the refusal's number and nought, or 0 and the altitude in µas. One like it stands
// for each such number, since C names it.
#[repr(C)]
#[derive(Clone, Copy)]
pub struct TurbelicusAltitude {
    pub refused: i64,
    pub altitude: i64,
}

// A Result for C: the refusal's number and noughts, or 0, the place with its flags, and the
// observed altitude in µas.
#[repr(C)]
#[derive(Clone, Copy, Default)]
pub struct TurbelicusObserved {
    pub refused: i64,
    pub ra: i64,
    pub declination: i64,
    pub azimuth: i64,
    pub altitude: i64,
    pub observed_altitude: i64,
    pub has_ra: i32,
    pub has_azimuth: i32,
}

impl From<Result<i64, Refusal>> for TurbelicusAltitude {
    ghost from_gives = { λ a b. b ≡ altitude_out (angle_answer a) };

    fn from(a: Result<i64, Refusal>) -> TurbelicusAltitude {
        let (refused, altitude) = numbered(a, 0);
        TurbelicusAltitude { refused, altitude }
    }
}

// A place and the observed altitude of it, as one answer: the place's refusal first. It reads the
// numbers of C's structs, as docs/DECISIONS.md has it for speed ("two calls in one").
pub fn beside_out(p: TurbelicusPlaced, seen: TurbelicusAltitude) -> TurbelicusObserved
    ensures { result ≡ beside_out p seen }
{
    if p.refused != 0 {
        return TurbelicusObserved {
            refused: p.refused,
            ..Default::default()
        };
    }
    if seen.refused != 0 {
        return TurbelicusObserved {
            refused: seen.refused,
            ..Default::default()
        };
    }
    TurbelicusObserved {
        refused: 0,
        ra: p.ra,
        declination: p.declination,
        azimuth: p.azimuth,
        altitude: p.altitude,
        observed_altitude: seen.altitude,
        has_ra: p.has_ra,
        has_azimuth: p.has_azimuth,
    }
}
