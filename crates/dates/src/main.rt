// The program `dates`, our own and not document 01's: reads lines to the end of standard input, a
// TT in ms on each, and prints for each its UTC date and time, or the refusal. It prints no header,
// and a last line without its end counts.

#![tactic(auto)]

use line_reads::Program;
use std::env::FillError;
use std::rt::Env;

// A word after the program's name is told in each program: a public function for both would have
// nothing to promise.
fn main(rt: HostRuntime) {
    if !matches!(rt.arg(1, &mut []), Err(FillError::NotPresent)) {
        // what cannot be said is lost
        let _ = eprintln!(rt; "usage: dates < FILE");
        return;
    }
    line_program::run(&rt, Program::Dates);
}
