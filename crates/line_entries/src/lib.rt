#![tactic(auto)]

// The line of an entry, of our own program `places`: appended to a text, or put at the front of
// lent memory.

ghost use Rattle.std.specs.Prelude.{◌≡◌, ◌≤◌, ◌+◌, ◌++◌, length};
ghost use Rattle.std.proofs.lemmas.List.Edits.{sets};
ghost use Rattle.arrayvec.specs.ArrayVec.{array_vec_len};
ghost use Rattle.rules.specs.Times.{decimal};
ghost use Rattle.line_entries.specs.EntryLine as rule;
ghost use Rattle.sexagesimal.specs.Sexagesimal.{spaced};

use crate::angles::put_angles;
use crate::styles::{People, Plain};
use arrayvec::ArrayVec;
use decimals::{append, put_at};
use rules::Entry;

pub mod air;
mod angles;
pub mod observed;
mod styles;

// A space and a number.
fn put_spaced<const N: usize>(n: i64, out: &mut ArrayVec<u8, N>)
    requires { array_vec_len out.old + 21 ≤ N }
    ensures items { out.new.items ≡ out.old.items ++ spaced (decimal n) }
    ensures short { array_vec_len out.new ≤ array_vec_len out.old + 21 }
{
    out.push(b' ');
    append(n, out);
}

// Number, mark and four angles of an entry. Whether for people is a bool, as docs/PROMISES.md names
// it: inside, a style is a type.
pub fn append_entry<const N: usize>(
    index: usize,
    entry: Entry,
    people: bool,
    out: &mut ArrayVec<u8, N>,
)
    requires { (index ≤ 64) × (array_vec_len out.old + 125 ≤ N) }
    ensures items { out.new.items ≡ out.old.items ++ rule.entry_line people index entry }
    ensures short { array_vec_len out.new ≤ array_vec_len out.old + 125 }
{
    append(index as i64, out);
    put_spaced(i64::from(entry.mark), out);
    if people {
        put_angles::<N, People>(entry.angles, out);
    } else {
        put_angles::<N, Plain>(entry.angles, out);
    }
}

// The same, put at the front of lent memory; how many bytes they are.
pub fn put_entry(index: usize, entry: Entry, people: bool, out: &mut [u8]) -> usize
    requires { (index ≤ 64) × (128 ≤ length out.old) }
    ensures value { result ≡ length (rule.entry_line people index entry) }
    ensures out_after { out.new
        ≡ sets out.old 0 (rule.entry_line people index entry) }
{
    let mut line = ArrayVec::<u8, 128>::new();
    append_entry(index, entry, people, &mut line);
    put_at(line.as_slice(), 0, out)
}
