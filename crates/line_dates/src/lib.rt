#![tactic(auto)]

// The lines of our own program `dates`, not document 01's: the answer to a line, printed.

ghost use Rattle.std.specs.Prelude.{◌≡◌, length};
ghost use Rattle.line_dates.specs.DateLines as rule;

use crate::printing::clocked_text;
use arrayvec::ArrayVec;
use decimals::{put_front, refused};
use numerals::parse;
use rules::Tt;
use utc::utc_of_tt;

mod printing;

// What `dates` prints for a line, without its end, as a text: the answer to its TT, where it is one
// of at most 18 digits.
//
// Given: any bytes.
// Rule: specs/DateLines.antt.
pub fn date_line(line: &[u8]) -> ArrayVec<u8, 64>
    ensures { result.items ≡ rule.date_line line.now }
{
    match parse(line, 18) {
        Some(tt) => clocked_text(utc_of_tt(Tt(tt))),
        None => refused(0),
    }
}

// What `dates` prints for a line, without its end.
//
// Given: any bytes, and any room.
// Returned: the length of the answer, which stands at the front of the room, and the rest of the
// room stays; or 0 where the room has fewer than 64 bytes, and then it stays. Its promise is of a
// lent room, and docs/PROMISES.md names it.
// Rule: specs/DateLines.antt.
#[tactic(auto, unfolding(crate::specs::DateLines::date_in, decimals::specs::Rooms::held_in))]
pub fn print_date(line: &[u8], out: &mut [u8]) -> usize
    ensures answer { result ≡ length (rule.date_in out.old line.now) }
    ensures kept { out.new ≡ rule.overlaid_in out.old line.now }
{
    // a room that is too small costs nothing more
    if out.len() < 64 {
        return 0;
    }
    put_front(&date_line(line), out)
}
