// Nights whose steps can be taken.

use rules::Night;
use std::marker::Model;

// A night that fits the steps, as each does that `night::night_at` works. A contract sees the night
// alone.
#[derive(Clone, Copy)]
pub struct ReadyNight {
    pub night: Night,
}

impl Model for ReadyNight {
    ghost use Rattle.rules.specs.declared.Night.{Night};
    ghost use Rattle.laws.specs.Night.{NightFits};

    ghost Value = { Night };

    ghost view = { λ a. a.night };

    ghost invariant = { λ a. NightFits a.night };

    ghost inverse = { λ n. record { night = n } };
}
