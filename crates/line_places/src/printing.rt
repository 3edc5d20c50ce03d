// The lines of an answer, each with its end, put one after another. Command and answer are passed
// side by side: a struct that lends the answer is no plainer, since each line is put by itself.

ghost use Rattle.std.specs.Prelude.{◌≡◌, ◌∷◌, [], ◌≤◌, ◌+◌, ◌++◌, length};
ghost use Rattle.arrayvec.specs.ArrayVec.{array_vec_len};
ghost use Rattle.rules.specs.ListFile.{most_records};
ghost use Rattle.rules.specs.Times.{ended};
ghost use Rattle.decimals.specs.Refused.{refused_to};
ghost use Rattle.line_places.specs.Answers.{line_in};
ghost use Rattle.line_places.specs.Program.{header_in};
ghost use Rattle.line_places.specs.Listed.{listed_line, lines_to};
ghost use Rattle.line_places.specs.Room.{answer_room};

use crate::Answer;
use crate::air::AcceptedCommand;
use crate::command::Command;
use decimals::{append_refused, put_text};
use line_entries::air::AcceptedAir;
use line_entries::append_entry;
use line_entries::observed::append_observed;
use rules::Entry;

// `refused ` and the number, with its end. The number is one, as `decimals` puts it.
#[tactic(auto, unfolding(rules::specs::Times::ended))]
pub fn put_refusal(number: i64, out: &mut Answer)
    requires { array_vec_len out.old + 29 ≤ answer_room }
    ensures { out.new.items ≡ out.old.items ++ ended (refused_to number ∷ []) }
{
    append_refused(number, out);
    put_text(b"\n", out);
}

// The header with its end.
#[tactic(auto, unfolding(crate::specs::Program::header_in, rules::specs::Times::ended))]
fn put_header(command: AcceptedCommand, out: &mut Answer)
    requires { array_vec_len out.old + 29 ≤ answer_room }
    ensures { out.new.items ≡ out.old.items ++ ended (header_in command.air ∷ []) }
{
    match command.command.air {
        None => put_text(b"entry mark ra dec az alt\n", out),
        Some(_) => put_text(b"entry mark ra dec az alt obs\n", out),
    }
}

// The columns of an entry. Index and entry stay two: the index is not the entry's own.
#[tactic(auto, unfolding(crate::specs::Answers::line_in))]
fn put_columns(index: usize, entry: Entry, command: AcceptedCommand, out: &mut Answer)
    requires few { index ≤ most_records }
    requires room { array_vec_len out.old + 146 ≤ answer_room }
    ensures items { out.new.items
        ≡ out.old.items ++ line_in command.people command.air index entry }
    ensures short { array_vec_len out.new ≤ array_vec_len out.old + 146 }
{
    let Command { people, air } = command.command;
    append_entry(index, entry, people, out);
    if let Some(air) = air {
        append_observed(AcceptedAir { air }, entry, people, out);
    }
}

// The line of an entry with its end.
#[tactic(auto, unfolding(rules::specs::Times::ended))]
fn put_line(index: usize, entry: Entry, command: AcceptedCommand, out: &mut Answer)
    requires few { index ≤ most_records }
    requires room { array_vec_len out.old + 147 ≤ answer_room }
    ensures items { out.new.items
        ≡ out.old.items ++ ended (line_in command.people command.air index entry ∷ []) }
    ensures short { array_vec_len out.new ≤ array_vec_len out.old + 147 }
{
    put_columns(index, entry, command, out);
    out.push(b'\n');
}

// The header, and the line of each entry.
pub fn put_entries(entries: &[Entry], command: AcceptedCommand, out: &mut Answer)
    requires few { length entries.now ≤ most_records }
    requires room { out.old.items ≡ [] }
    ensures { out.new.items ≡ ended (header_in command.air
        ∷ lines_to (listed_line command.people command.air entries.now) (length entries.now)) }
{
    put_header(command, out);
    for (index, entry) in entries.iter().enumerate() {
        put_line(index, *entry, command, out);
    }
}
