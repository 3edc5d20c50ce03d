// The words that the program is called by.

ghost use Rattle.std.specs.Prelude.{◌≡◌};
ghost use Rattle.line_places.specs.Program as rule;

use line_entries::air::Air;
use numerals::tenths;

// What a command asks for: angles for people or in µas, and the observed altitude in an air. The
// air is as it was given, since it is refused after all others (`air::accepted`). `people` is a
// flag, since the definitions have it so.
#[derive(Clone, Copy)]
pub struct Command {
    pub people: bool,
    pub air: Option<Air>,
}

// A command that ends in pressure and temperature.
fn with_air(people: bool, pressure: &[u8], temperature: &[u8]) -> Option<Command>
    ensures { result
        ≡ rule.with_air people pressure.now temperature.now }
{
    let pressure = tenths::parse(pressure)?;
    let temperature = tenths::parse(temperature)?;
    let air = Some(Air {
        pressure,
        temperature,
    });
    Some(Command { people, air })
}

// The command `places FILE [sexagesimal] [PRESSURE TEMPERATURE]`.
//
// Given: how many words it has, the program's name among them; its third, fourth and fifth word,
// or no bytes.
// Returned: what it asks for; or none, where it is of another form.
// Rule: specs/Program.antt.
//
// The count of words stands beside three of them: docs/PROMISES.md and `promises/ProgramPlaces`
// name it so, and no more of the words is kept.
pub fn command_of(words: usize, third: &[u8], fourth: &[u8], fifth: &[u8]) -> Option<Command>
    ensures { result ≡ rule.command_of words third.now fourth.now
        fifth.now }
{
    let people = third == b"sexagesimal".as_slice();
    match words {
        2 => Some(Command {
            people: false,
            air: None,
        }),
        3 if people => Some(Command { people, air: None }),
        4 => with_air(false, third, fourth),
        5 if people => with_air(people, fourth, fifth),
        _ => None,
    }
}
