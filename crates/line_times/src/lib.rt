#![tactic(auto)]

// The lines of `times`, docs/RULES.md, "Dates": the answer to a line, printed.

ghost use Rattle.std.specs.Prelude.{◌≡◌, length};
ghost use Rattle.line_times.specs.Printed.{printed_for, printed_in, overlaid_in};

use crate::printing::printed;
use arrayvec::ArrayVec;
use numerals::fields::line_of;

mod printing;

// What `times` prints for a line, without its end, as a text.
//
// Given: any bytes.
// Rule: docs/RULES.md, "Dates".
pub fn printed_for(line: &[u8]) -> ArrayVec<u8, 64>
    ensures { result.items ≡ printed_for line.now }
{
    printed(line_of(line))
}

// What `times` prints for a line, without its end.
//
// Given: any bytes, and any room.
// Returned: the length of the answer, which stands at the front of the room, and the rest of the
// room stays; or 0 where the room has fewer than 64 bytes, and then it stays. C lends the room and
// gets the length.
// Rule: docs/RULES.md, "Dates".
#[tactic(auto, unfolding(crate::specs::Printed::printed_in, decimals::specs::Rooms::held_in))]
pub fn print_line(line: &[u8], out: &mut [u8]) -> usize
    ensures answer { result ≡ length (printed_in out.old line.now) }
    ensures kept { out.new ≡ overlaid_in out.old line.now }
{
    // a room that is too small costs nothing more
    if out.len() < 64 {
        return 0;
    }
    // by exchange: a copy of a length that is not known would have C's linker find `memcpy`
    let mut text = printed_for(line);
    let n = text.len();
    out[..n].swap_with_slice(text.as_mut_slice());
    n
}
