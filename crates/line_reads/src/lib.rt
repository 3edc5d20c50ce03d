#![tactic(auto)]

// The lines of `times` and of `dates` as reads bring them: each read is answered by itself, line by
// line, and the start of the line that it breaks off in is kept for the next.

ghost use Rattle.std.specs.Prelude.{◌≡◌, ◌+◌, ◌≤◌, ◌++◌, take};
ghost use Rattle.arrayvec.specs.ArrayVec.{array_vec_len};
ghost use Rattle.rules.specs.Times.{overlaid};
ghost use Rattle.line_reads.specs.Reads as reads;

use crate::bytes::{answer_bytes, put_answer};
use arrayvec::ArrayVec;
use decimals::{put_at, put_text};

mod bytes;
mod programs;
mod starts;

pub use starts::Start;

// The program whose lines are answered: an enum, since one set of theorems speaks of both
// (ProgramLines.antt of `promises`).
#[derive(Clone, Copy)]
pub enum Program {
    Times,
    Dates,
}

// What is printed for a read: no line is answered by more than 64 bytes with its end.
pub type Answers = ArrayVec<u8, 65536>;

// What a read leaves in lent memory: the start of the line that it breaks off in, and how many
// bytes of answers stand at the front of the room.
#[derive(Clone, Copy)]
pub struct AfterRead {
    pub start: Start,
    pub written: usize,
}

// Before any read: the header, if the program has one, as a text.
//
// Given: the program; a room for its header, and what stands there goes.
// Returned: a start with no byte. The room then has the header with its end, and no more.
// Rule: docs/RULES.md, "Dates"; of `dates`, specs/DateLines.antt of `line_dates`.
#[tactic(auto, using(crate::specs::Lengths::header_le))]
pub fn begin_text(program: Program, out: &mut Answers) -> Start
    ensures answer { result ≡ reads.none }
    ensures printed { out.new.items ≡ reads.header_line program }
{
    out.clear();
    put_text(program.header(), out);
    Start::new()
}

// At the end of the input: the last line, if it has begun.
#[tactic(auto, unfolding(crate::specs::Reads::last_answer))]
fn answer_end(program: Program, start: Start, out: &mut Answers) -> Start
    requires { array_vec_len out.old + 64 ≤ 65536 }
    ensures value { result ≡ reads.none }
    ensures out_after { out.new.items ≡ out.old.items ++ reads.last_answer program start }
{
    if !start.is_empty() {
        put_answer(program, &start, out);
    }
    Start::new()
}

// What a read is answered by, as a text.
//
// Given: the program; the start that the read before left; the bytes of this one, of which the
// first 1,024 count, or none at the end of the input; a room for their answers, and what stands
// there goes.
// Returned: the start of the line that the read breaks off in. The room then has the answers of the
// lines that end in it, and no more. At the end of the input the last line is answered too, if it
// has begun.
// Program and start are apart, as the calls in `CallsOf` are (ProgramLines.antt of `promises`).
// Rule: docs/RULES.md, "Dates"; of `dates`, specs/DateLines.antt of `line_dates`.
pub fn answer_text(program: Program, start: Start, read: &[u8], out: &mut Answers) -> Start
    ensures answer { result ≡ reads.start_of_next start (take 1024 read.now) }
    ensures printed { out.new.items ≡ reads.answers_of program start (take 1024 read.now) }
{
    out.clear();
    let end = read.len().min(1024);
    if end == 0 {
        return answer_end(program, start, out);
    }
    answer_bytes(program, start, &read[..end], out)
}

// Before any read: the header, if the program has one, in lent memory.
//
// Given: the program; room for its header.
// Returned: a start with no byte, and the length of the header with its end, which stands at the
// front of the room; the rest of the room stays.
// Rule: docs/RULES.md, "Dates"; of `dates`, specs/DateLines.antt of `line_dates`.
pub fn begin(program: Program, out: &mut [u8; 65536]) -> AfterRead
    ensures answer { result ≡ reads.begun program }
    ensures kept { out.new
        ≡ overlaid (reads.header_line program) out.old }
{
    AfterRead {
        start: Start::new(),
        written: put_at(program.header(), 0, out),
    }
}

// What a read is answered by, in lent memory.
//
// Given: the program; the start that the read before left; the bytes of this one, the first `count`
// of `input`, or none at the end of the input; room for their answers: no line is answered by more
// than 64 bytes with its end.
// Returned: the start of the line that the read breaks off in, and the length of the answers of
// the lines that end in it, which stand at the front of the room; the rest of the room stays. At
// the end of the input the last line is answered too, if it has begun.
// Rule: docs/RULES.md, "Dates"; of `dates`, specs/DateLines.antt of `line_dates`.
pub fn answer_read(
    program: Program,
    start: Start,
    input: &[u8; 1024],
    count: usize,
    out: &mut [u8; 65536],
) -> AfterRead
    ensures answer { result
        ≡ reads.after_read program start (take count input.now) }
    ensures kept { out.new
        ≡ overlaid (reads.answers_of program start (take count input.now))
        out.old }
{
    let mut answers = Answers::new();
    let end = count.min(1024);
    let next = answer_text(program, start, &input[..end], &mut answers);
    AfterRead {
        start: next,
        written: put_at(answers.as_slice(), 0, out),
    }
}
