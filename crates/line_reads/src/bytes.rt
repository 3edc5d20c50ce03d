// The bytes of a read, one after another.

ghost use Rattle.std.specs.Prelude.{◌≡◌, ◌+◌, ◌*◌, ◌≤◌, ◌++◌, length};
ghost use Rattle.arrayvec.specs.ArrayVec.{array_vec_len};
ghost use Rattle.line_reads.specs.Reads as reads;

use crate::{Answers, Program, Start};
use decimals::put_text;

// Puts the answer of a line, with its end, after those before it. The room of 64 bytes stays a
// clause of each function: it is what `answer_text` counts, byte by byte of the read.
#[tactic(auto, using(crate::specs::Lengths::answer_le), unfolding(crate::specs::Reads::answered))]
pub fn put_answer(program: Program, start: &Start, out: &mut Answers)
    requires { array_vec_len out.old + 64 ≤ 65536 }
    ensures { out.new.items ≡ out.old.items ++ reads.answered program start.now }
{
    let answer = program.answer(start.as_slice());
    put_text(answer.as_slice(), out);
    out.push(b'\n');
}

// One byte more of the input.
#[tactic(auto, unfolding(crate::specs::Reads::start_after, crate::specs::Reads::answer_at))]
fn answer_byte(program: Program, start: &mut Start, b: u8, out: &mut Answers)
    requires { array_vec_len out.old + 64 ≤ 65536 }
    ensures begun { start.new ≡ reads.start_after start.old b }
    ensures out_after { out.new.items ≡ out.old.items ++ reads.answer_at program start.old b }
{
    if b == b'\n' {
        put_answer(program, start, out);
        *start = Start::new();
    } else {
        start.push(b);
    }
}

// All bytes of a read.
pub fn answer_bytes(program: Program, start: Start, read: &[u8], out: &mut Answers) -> Start
    requires { array_vec_len out.old + 64 * length read.now ≤ 65536 }
    ensures value { result ≡ reads.start_after_all start read.now }
    ensures out_after { out.new.items ≡ out.old.items ++ reads.answers_to program start read.now }
{
    let mut line = start;
    for b in read {
        answer_byte(program, &mut line, *b, out);
    }
    line
}
