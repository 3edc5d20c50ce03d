// The answers of the list file, as C gets them.

ghost use Rattle.std.specs.Prelude.{◌≡◌};
ghost use Rattle.rules.specs.Answers.{listed_answer, listed_star_answer};
ghost use Rattle.answers.specs.Answers.{counted_out, starred_out, written_out};

use crate::numbered;
use rules::{Refusal, Star};

// A Result for C: the refusal's number and nought, or 0 and the number of records.
#[repr(C)]
#[derive(Clone, Copy)]
pub struct TurbelicusCounted {
    pub refused: i64,
    pub count: usize,
}

// A Result for C: the refusal's number and noughts, or 0 and the star; angles in µas, motions in
// µas a year.
#[repr(C)]
#[derive(Clone, Copy, Default)]
pub struct TurbelicusStarred {
    pub refused: i64,
    pub ra: i64,
    pub declination: i64,
    pub ra_motion: i32,
    pub declination_motion: i32,
}

// A Result for C: the refusal's number and nought, or 0 and the file's length in bytes. It is a
// twin of TurbelicusCounted, since C names the number of each.
#[repr(C)]
#[derive(Clone, Copy)]
pub struct TurbelicusWritten {
    pub refused: i64,
    pub length: usize,
}

impl From<Result<usize, Refusal>> for TurbelicusCounted {
    ghost from_gives = { λ a b. b ≡ counted_out (listed_answer a) };

    fn from(a: Result<usize, Refusal>) -> TurbelicusCounted {
        let (refused, count) = numbered(a, 0);
        TurbelicusCounted { refused, count }
    }
}

impl From<Result<Star, Refusal>> for TurbelicusStarred {
    ghost from_gives = { λ a b. b ≡ starred_out (listed_star_answer a) };

    fn from(a: Result<Star, Refusal>) -> TurbelicusStarred {
        match a {
            Ok(s) => TurbelicusStarred {
                refused: 0,
                ra: s.ra,
                declination: s.declination,
                ra_motion: s.ra_motion,
                declination_motion: s.declination_motion,
            },
            Err(r) => TurbelicusStarred {
                refused: refusals::number(r),
                ..Default::default()
            },
        }
    }
}

impl From<Result<usize, Refusal>> for TurbelicusWritten {
    ghost from_gives = { λ a b. b ≡ written_out (listed_answer a) };

    fn from(a: Result<usize, Refusal>) -> TurbelicusWritten {
        let (refused, length) = numbered(a, 0);
        TurbelicusWritten { refused, length }
    }
}
