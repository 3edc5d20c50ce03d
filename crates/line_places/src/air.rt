// What a command says of the air.

ghost use Rattle.std.specs.Prelude.{◌≡◌, cond, Some, None};
ghost use Rattle.line_places.specs.Air.{air_accepted};

use crate::command::Command;
use line_entries::air::Air;
use std::marker::Model;
use whole::is_between;

// A command whose air is accepted. A contract sees the command alone.
#[derive(Clone, Copy)]
pub(crate) struct AcceptedCommand {
    pub command: Command,
}

impl Model for AcceptedCommand {
    ghost use Rattle.std.specs.Prelude.{◌≡◌, true};
    ghost use Rattle.line_places.specs.declared.command.Command.{Command};
    ghost use Rattle.line_places.specs.Air.{air_accepted};

    ghost Value = { Command };

    ghost view = { λ a. a.command };

    ghost invariant = { λ a. air_accepted a.command.air ≡ true };

    ghost inverse = { λ command. record { command = command } };
}

// Whether pressure and temperature are in their ranges, where they are given.
pub(crate) fn is_accepted(air: Option<Air>) -> bool
    ensures { result ≡ air_accepted air }
{
    match air {
        None => true,
        Some(air) => {
            is_between(5000, 11000, air.pressure) && is_between(-500, 500, air.temperature)
        }
    }
}

// The command, where its air is accepted.
pub(crate) fn accepted(command: Command) -> Option<AcceptedCommand>
    ensures { result ≡ cond (air_accepted command.air) (Some command) None }
{
    if is_accepted(command.air) {
        return Some(AcceptedCommand { command });
    }
    None
}
