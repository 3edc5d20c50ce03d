// The programs `times` and `dates`: lines are read to the end of standard input, answered and
// handed out.
//
// What is printed for what is read is proved of `line_reads`. An input that cannot be read and an
// output that cannot be written each get a line on standard error, and end the program.

#![tactic(auto)]

ghost use Rattle.std.specs.Prelude.{IfOk, IfSome};
ghost use Rattle.line_program.specs.Turns.{Handed, Turned};

use input::reason::Reason;
use line_reads::{Answers, Program, Start, answer_text, begin_text};
use std::io::Read;
use std::{fmt, io};

// Which stream failed, and why.
#[derive(Clone, Copy)]
enum Failure {
    Input(io::Error),
    Output(io::Error),
}

impl fmt::Display for Failure {
    fn fmt<W: fmt::Write>(&self, f: &mut fmt::Formatter<W>) -> fmt::Result {
        match *self {
            Failure::Input(error) => write!(f, "standard input: {}", Reason(error)),
            Failure::Output(error) => write!(f, "standard output: {}", Reason(error)),
        }
    }
}

// Hands what stands in the room to standard output. `rt` and `program` go through each function: a
// struct of both would be made once and taken apart in each.
fn hand_out<R: Print>(rt: &R, program: Program, out: &Answers) -> Result<(), Failure>
    requires { Handed program out.now.items }
{
    rt.write_all(out).map_err(Failure::Output)
}

// One read, its answers, and the start of the next turn; none after the last. A read of nothing is
// the end of the input.
fn read_some<R: Print, I: Read>(
    rt: &R,
    input: &mut I,
    program: Program,
    start: Start,
    out: &mut Answers,
) -> Result<Option<Start>, Failure>
    ensures { IfOk result (λ next. IfSome next (λ s. Turned program start s out.new.items)) }
{
    let mut bytes = [0u8; 1024];
    let count = input.read(&mut bytes).map_err(Failure::Input)?;
    let next = answer_text(program, start, &bytes[..count], out);
    hand_out(rt, program, out)?;
    if count == 0 {
        return Ok(None);
    }
    Ok(Some(next))
}

// Reads, answers and hands out to the end of the input. No input has more reads than are counted: a
// `while let` would need a measure, and nothing that a contract can name grows less with a read.
fn answer_all<R: Print, I: Read>(rt: &R, input: &mut I, program: Program) -> Result<(), Failure> {
    // to read no byte takes none and does not wait
    let mut byte = [0u8; 1];
    input.read(&mut byte[..0]).map_err(Failure::Input)?;
    let mut out = Answers::new();
    let mut start = begin_text(program, &mut out);
    hand_out(rt, program, &out)?;
    for _ in 0..i64::MAX {
        match read_some(rt, input, program, start, &mut out)? {
            Some(next) => start = next,
            None => break,
        }
    }
    Ok(())
}

// The whole program: standard input to its end, and on standard output what the program prints for
// it, or a message on standard error. What cannot be said is lost.
pub fn run<R: Input + Print + Eprint>(rt: &R, program: Program) {
    let mut input = rt.reader();
    if let Err(failure) = answer_all(rt, &mut input, program) {
        let name = program.name();
        let _ = eprintln!(rt; "{name}: {failure}");
    }
}
