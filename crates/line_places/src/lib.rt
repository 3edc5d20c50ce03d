#![tactic(auto)]

// Lines of the program `places`, our own and not document 01's: a line read, and all that is
// printed for it.

ghost use Rattle.std.specs.Prelude.{◌≡◌, ◌≤◌, [], length, Ok, ℕ};
ghost use Rattle.rules.specs.ListFile.{most_records};
ghost use Rattle.rules.specs.Times.{overlaid, ended};
ghost use Rattle.line_places.specs.Program.{places};
ghost use Rattle.line_places.specs.Listed.{counted, accepted_lines, read_lines};

use crate::air::accepted;
use crate::command::Command;
use crate::printing::{put_entries, put_refusal};
use arrayvec::ArrayVec;
use decimals::put_at;
use entries_listing::{Listing, read, work};
use line_asked::{Asked, asked_of, length_before};
use line_entries::air::Air;
use rules::{Entry, Refusal};
use units::{HEAD_BYTES, MOST_RECORDS, RECORD_BYTES};

pub mod air;
pub mod command;
mod printing;

// The bytes that are enough of a file and of a line, and room for a header and a line of each
// entry: specs/Cuts.antt, specs/Room.antt.
pub const FILE_KEPT: usize = HEAD_BYTES + RECORD_BYTES * MOST_RECORDS + 1;

pub const LINE_KEPT: usize = 65;

pub const ANSWER_ROOM: usize = 9472;

// What is printed, all of it.
pub type Answer = ArrayVec<u8, ANSWER_ROOM>;

// All that is printed of entries, which were worked; or that the air is refused. That the room is
// empty stays a clause, here and below: `answer_text` clears it once for all of them. So does how
// many entries there are: a slice has no length in its type.
fn print_accepted(entries: &[Entry], command: Command, out: &mut Answer)
    requires few { length entries.now ≤ most_records }
    requires room { out.old.items ≡ [] }
    ensures { out.new.items
        ≡ ended (accepted_lines command.people command.air entries.now (length entries.now)) }
{
    match accepted(command) {
        Some(command) => put_entries(entries, command, out),
        None => put_refusal(refusals::number(Refusal::Reading), out),
    }
}

// All that is printed of a list that was worked: of its entries, or that the night is refused.
fn print_worked(
    answer: Result<usize, Refusal>,
    entries: &[Entry],
    command: Command,
    out: &mut Answer,
)
    requires few { length entries.now ≤ most_records }
    requires room { out.old.items ≡ [] }
    ensures { out.new.items ≡ ended (counted answer (λ marked.
        accepted_lines command.people command.air entries.now (length entries.now))) }
{
    match answer {
        Ok(_) => print_accepted(entries, command, out),
        Err(r) => put_refusal(refusals::number(r), out),
    }
}

// All that is printed for a list that was read, by what the line asks for. `work` takes the count
// beside the list, as `listing_worked` does: of a list that was worked the answer is another
// number.
fn print_asked(listing: Listing, asked: Option<Asked>, command: Command, out: &mut Answer)
    requires few { (count : ℕ) → listing.answer ≡ Ok count → count ≤ most_records }
    requires room { out.old.items ≡ [] }
    ensures { out.new.items ≡ ended (read_lines command.people command.air asked listing) }
{
    match (listing.answer, asked) {
        (Err(r), _) => put_refusal(refusals::number(r), out),
        (Ok(_), None) => put_refusal(0, out),
        (Ok(count), Some(asked)) => {
            let worked = work(asked.moment, asked.site, count, listing);
            print_worked(worked.answer, &worked.entries[..count], command, out)
        }
    }
}

// All that the program prints, as a text.
//
// Given: file and input, any bytes: the input is what standard input holds, and its first line
// alone counts; any command; a room for a header and 64 lines, and what stands there goes.
// Returned: nothing. The room then has all that is printed, and no more.
// Rule: specs/Program.antt.
pub fn answer_text(file: &[u8], input: &[u8], command: Command, out: &mut Answer)
    ensures { out.new.items ≡ places command.people command.air file.now input.now }
{
    out.clear();
    let n = length_before(b'\n', input);
    let line = &input[..n];
    let asked = asked_of(line);
    print_asked(read(file), asked, command, out)
}

// All that the program prints, in lent memory.
//
// Given: file and input, any bytes: the input is what standard input holds, and its first line
// alone counts; whether angles are printed for people; any air; room for a header and 64 lines.
// Returned: how many bytes are printed, which stand at the front of the room; the rest of the room
// stays.
// Rule: specs/Program.antt.
pub fn print_answer(
    file: &[u8],
    input: &[u8],
    people: bool,
    air: Option<Air>,
    out: &mut [u8; ANSWER_ROOM],
) -> usize
    ensures answer { result
        ≡ length (places people air file.now input.now) }
    ensures kept { out.new
        ≡ overlaid (places people air file.now input.now)
        out.old }
{
    let mut answer = Answer::new();
    answer_text(file, input, Command { people, air }, &mut answer);
    put_at(answer.as_slice(), 0, out)
}
