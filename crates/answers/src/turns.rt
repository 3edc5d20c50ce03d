// The answers of a turn and of a reading, as C gets them.

ghost use Rattle.std.specs.Prelude.{◌≡◌};
ghost use Rattle.rules.specs.Answers.{turned_answer, read_answer};
ghost use Rattle.answers.specs.Answers.{turned_out, read_out};

use rules::{Direction, Refusal};

// A Result for C: the refusal's number and noughts, or 0 and the direction in parts of 2^30. Other
// structs of three numbers have a conversion like it, since C names the numbers of each.
#[repr(C)]
#[derive(Clone, Copy, Default)]
pub struct TurbelicusTurned {
    pub refused: i64,
    pub x: i64,
    pub y: i64,
    pub z: i64,
}

// An Option for C: 1 and the angle in µas, or noughts where there is none.
#[repr(C)]
#[derive(Clone, Copy)]
pub struct TurbelicusRead {
    pub angle: i64,
    pub has_angle: i64,
}

impl From<Result<Direction, Refusal>> for TurbelicusTurned {
    ghost from_gives = { λ a b. b ≡ turned_out (turned_answer a) };

    fn from(a: Result<Direction, Refusal>) -> TurbelicusTurned {
        match a {
            Ok(v) => TurbelicusTurned {
                refused: 0,
                x: v.x,
                y: v.y,
                z: v.z,
            },
            Err(r) => TurbelicusTurned {
                refused: refusals::number(r),
                ..Default::default()
            },
        }
    }
}

impl From<Option<i64>> for TurbelicusRead {
    ghost from_gives = { λ a b. b ≡ read_out (read_answer a) };

    fn from(a: Option<i64>) -> TurbelicusRead {
        TurbelicusRead {
            angle: a.unwrap_or(0),
            has_angle: i64::from(a.is_some()),
        }
    }
}
