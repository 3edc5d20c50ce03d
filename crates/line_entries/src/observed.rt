// The observed altitude of an entry, in a column of its own.

ghost use Rattle.std.specs.Prelude.{◌≡◌, ◌≤◌, ◌+◌, ◌++◌, length};
ghost use Rattle.std.proofs.lemmas.List.Edits.{sets};
ghost use Rattle.arrayvec.specs.ArrayVec.{array_vec_len};
ghost use Rattle.laws.specs.Refraction as law;
ghost use Rattle.line_entries.specs.Observed as rule;

use crate::air::{AcceptedAir, Air};
use crate::styles::{People, Plain, Style};
use arrayvec::ArrayVec;
use decimals::put_at;
use marks::is_filled;
use refraction::lift_at;
use rules::Entry;

// The altitude of an entry and its lift in an air.
fn observed_of(air: AcceptedAir, entry: Entry) -> i64
    ensures { result ≡ rule.observed_of air.pressure air.temperature entry }
{
    if is_filled(entry) {
        let h = entry.angles.altitude;
        let Air {
            pressure,
            temperature,
        } = air.air;
        return h + lift_at(h, pressure, temperature);
    }
    0
}

// The observed altitude after a space, in µas or for people, appended to a text.
//
// Given: an accepted air; any entry; whether for people, as the rule `observed_column` takes it; a
// text with 21 bytes free.
// Rule: specs/Observed.antt.
pub fn append_observed<const N: usize>(
    air: AcceptedAir,
    entry: Entry,
    people: bool,
    out: &mut ArrayVec<u8, N>,
)
    requires { array_vec_len out.old + 21 ≤ N }
    ensures items { out.new.items
        ≡ out.old.items ++ rule.observed_column people air.pressure air.temperature entry }
    ensures short { array_vec_len out.new ≤ array_vec_len out.old + 21 }
{
    let h = observed_of(air, entry);
    if people {
        People::put_height(h, out);
    } else {
        Plain::put_height(h, out);
    }
}

// The observed altitude after a space, in µas or for people, put at a place of lent memory.
//
// Given: p from 5,000 to 11,000 and t from -500 to 500, the tenths of pressure and temperature; any
// entry; whether for people; a place of the room.
// Returned: the place after what is put.
// Rule: specs/Observed.antt.
pub fn put_observed(p: i64, t: i64, entry: Entry, people: bool, at: usize, out: &mut [u8]) -> usize
    requires { law.Air p t × (at + 21 ≤ length out.old) }
    ensures value { result ≡ at + length (rule.observed_column people p t entry) }
    ensures out_after { out.new
        ≡ sets out.old at (rule.observed_column people p t entry) }
{
    let air = Air {
        pressure: p,
        temperature: t,
    };
    let mut column = ArrayVec::<u8, 21>::new();
    append_observed(AcceptedAir { air }, entry, people, &mut column);
    put_at(column.as_slice(), at, out)
}
