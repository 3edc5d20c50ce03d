#![tactic(auto)]

// The stars of lent entries, written as a list file.

ghost use Rattle.std.specs.Prelude.{◌≡◌};
ghost use Rattle.rules.specs.ListWriting.{list_written, room_after_write};

use entries_write_checks::length_within;
use list_records::{put_head, put_record};
use rules::{Entry, Refusal};
use units::{HEAD_BYTES, RECORD_BYTES};

// The stars of entries written as a list file.
//
// Given: entries, any number, of which neither mark nor place is looked at; room, any.
// Returned: the file's length, and the file at the start of room; the bytes past it stay. Or
// refusal 5 or 11, and all bytes stay.
// Rule: docs/RULES.md, "Lists".
pub fn write_list(entries: &[Entry], room: &mut [u8]) -> Result<usize, Refusal>
    ensures { (result ≡ list_written entries.now room.old)
        × (room.new ≡ room_after_write entries.now room.old) }
{
    let length = length_within(entries, room.len())?;
    // By its place: no contract says what a room ends as whose parts `chunks_exact_mut` or
    // `as_chunks_mut` lends, so a walk by parts has no proof.
    for (i, entry) in entries.iter().enumerate() {
        put_record(&mut room[HEAD_BYTES + RECORD_BYTES * i..], entry.star);
    }
    put_head(room, entries.len());
    Ok(length)
}
