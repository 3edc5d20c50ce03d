#![tactic(auto)]

// A list file read into entries: the checks before, and a record as an entry.

ghost use Rattle.std.specs.Prelude.{◌≡◌, length, ◌≤◌};
ghost use Rattle.rules.specs.ListFile.{record_length, star_in};
ghost use Rattle.rules.specs.ListReading.{list_count, read_into, fresh_entry};

use list_file::{list_count, star_in};
use rules::{Angles, Entry, Refusal};

// How many records are read into `room` entries, after the checks: 9, 10, 5, then 11.
pub fn read_into(file: &[u8], room: usize) -> Result<usize, Refusal>
    ensures { result ≡ read_into (list_count file.now) room }
{
    let count = list_count(file)?;
    if room < count {
        return Err(Refusal::Room);
    }
    Ok(count)
}

// The record that the bytes begin with, as an entry. The noughts are written out: by `Default` each
// entry would go by way of the stack.
#[tactic(auto, unfolding(rules::specs::ListReading::fresh_entry))]
pub fn entry_in(bytes: &[u8]) -> Entry
    requires { record_length ≤ length bytes.now }
    ensures { result ≡ fresh_entry (star_in bytes.now) }
{
    Entry {
        star: star_in(bytes),
        mark: 0,
        angles: Angles {
            ra: 0,
            declination: 0,
            azimuth: 0,
            altitude: 0,
        },
    }
}
