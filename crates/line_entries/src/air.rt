// The air that an altitude is observed in.

use std::marker::Model;

// Pressure and temperature, in tenths of hPa and of degrees.
#[derive(Clone, Copy)]
pub struct Air {
    pub pressure: i64,
    pub temperature: i64,
}

// An air that is accepted: its pressure is from 5,000 to 11,000, its temperature from -500 to 500.
// A contract sees the air alone.
#[derive(Clone, Copy)]
pub struct AcceptedAir {
    pub air: Air,
}

impl Model for AcceptedAir {
    ghost use Rattle.line_entries.specs.declared.air.Air.{Air};
    ghost use Rattle.laws.specs.Refraction as law;

    ghost Value = { Air };

    ghost view = { λ a. a.air };

    ghost invariant = { λ a. law.Air a.air.pressure a.air.temperature };

    ghost inverse = { λ air. record { air = air } };
}
