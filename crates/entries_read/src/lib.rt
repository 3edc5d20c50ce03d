#![tactic(auto)]

// The star list file, read into lent entries.

ghost use Rattle.std.specs.Prelude.{◌≡◌};
ghost use Rattle.rules.specs.ListReading.{list_read, entries_after_read};

use entries_read_checks::{entry_in, read_into};
use rules::{Entry, Refusal};
use units::{HEAD_BYTES, RECORD_BYTES};

// A list file read into entries.
//
// Given: file, any bytes; entries, any number.
// Returned: how many records were read; each is an entry with mark 0 and four noughts, and the
// entries past the count stay. Or refusal 9, 10, 5 or 11, and all entries stay.
// Rule: docs/RULES.md, "Lists".
pub fn read_list(file: &[u8], entries: &mut [Entry]) -> Result<usize, Refusal>
    ensures { (result ≡ list_read file.now entries.old)
        × (entries.new ≡ entries_after_read file.now entries.old) }
{
    let count = read_into(file, entries.len())?;
    let (records, _) = file[HEAD_BYTES..].as_chunks::<RECORD_BYTES>();
    for (i, record) in records.iter().enumerate() {
        entries[i] = entry_in(record);
    }
    Ok(count)
}
