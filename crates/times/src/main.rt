// The program `times`, docs/RULES.md, "Dates": reads lines to the end of standard input, and prints
// a header, then for each line the day number, UT and TT, or the refusal. A last line without its
// end counts.

#![tactic(auto)]

use line_reads::Program;
use std::env::FillError;
use std::rt::Env;

// A word after the program's name is told in each program: a public function for both would have
// nothing to promise.
fn main(rt: HostRuntime) {
    if !matches!(rt.arg(1, &mut []), Err(FillError::NotPresent)) {
        // what cannot be said is lost
        let _ = eprintln!(rt; "usage: times < FILE");
        return;
    }
    line_program::run(&rt, Program::Times);
}
