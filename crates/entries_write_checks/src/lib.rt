#![tactic(auto)]

// The checks of entries that are to be written as a list file.

ghost use Rattle.std.specs.Prelude.{◌≡◌, length};
ghost use Rattle.rules.specs.ListFile.{any_refused};
ghost use Rattle.rules.specs.ListWriting.{stars_of, room_refused, written_of};

use list_records::file_length;
use rules::{Entry, Refusal};
use stars::star_refused;

// Refusal 5: one of the entries has a star that is refused. Its likes of records and of numbers
// each ask it of what they walk: what they share is in `stars`.
fn any_refused(entries: &[Entry]) -> bool
    ensures { result ≡ any_refused (stars_of entries.now) }
{
    entries.iter().any(|entry| star_refused(entry.star))
}

// The length of the file, after the checks of its stars and of `room` bytes: 5, then 11.
pub fn length_within(entries: &[Entry], room: usize) -> Result<usize, Refusal>
    ensures { result ≡ written_of (any_refused (stars_of entries.now))
        (room_refused (length entries.now) room) (length entries.now) }
{
    if any_refused(entries) {
        return Err(Refusal::Star);
    }
    file_length(entries.len(), room)
}
