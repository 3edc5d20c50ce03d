// The program `places`, our own and not document 01's: prints where the stars of a list file stand.
//
//   places FILE [sexagesimal] [PRESSURE TEMPERATURE]
//
// Pressure in hPa and temperature in degrees have at most one digit after a point; with them the
// observed altitude is printed too.
//
// Standard input: one line, `YYYY-MM-DD hh:mm:ss.mmm d latitude longitude`, angles in µas.
// Standard output: a header and a line for each entry, or `refused N`. `line_places::answer_text`
// works it out whole, and it is written at once. What went wrong with the arguments, with reading
// or with writing is a line on standard error; of the first two, standard output then has nothing.

#![tactic(auto)]

ghost use Rattle.std.specs.Prelude.{◌≤◌, length, IfOk};

use input::reason::Reason;
use input::{read_file, read_line};
use line_places::command::{Command, command_of};
use line_places::{Answer, FILE_KEPT, LINE_KEPT, answer_text};
use std::env::FillError;
use std::fs::File;
use std::io;
use std::os::fd::AsRawFd;
use std::rt::Env;

// The bytes of a word that are looked at, and no more: as many as a path has room for.
const WORD_KEPT: usize = 4096;

// What the system says of a word that is not there, of one that is longer than its room, and of a
// name that is no UTF-8: std opens no such file.
const INVALID: i32 = 22;

const TOO_LONG: i32 = 36;

const NOT_TEXT: i32 = 84;

// Why nothing is printed, or not all of it.
#[derive(Clone, Copy)]
enum Failure<'a> {
    // A command of another form.
    Usage,
    // Standard input is closed.
    Closed,
    // What cannot be opened, read or written, by its name.
    Of(&'a [u8], io::Error),
}

// Says why. What cannot be said is lost. No `Display`: a name may be no UTF-8, and is written as
// its bytes.
fn say(rt: &HostRuntime, failure: Failure) {
    let _ = match failure {
        Failure::Usage => {
            eprintln!(rt; "usage: places FILE [sexagesimal] [PRESSURE TEMPERATURE]")
        }
        Failure::Closed => eprintln!(rt; "places: standard input: closed"),
        Failure::Of(name, error) => {
            let why = Reason(error);
            let errors = rt.stderr();
            let _ = errors.write_all(b"places: ");
            let _ = errors.write_all(name);
            eprintln!(rt; ": {why}")
        }
    };
}

// What the system says of a word that does not stand in its room.
fn no_word(error: FillError) -> io::Error {
    io::Error::from_raw_os_error(match error {
        FillError::TooLong => TOO_LONG,
        FillError::NotPresent => INVALID,
    })
}

// A word of the command, where the room holds it; or why it does not stand there.
fn word<'a>(rt: &HostRuntime, index: usize, room: &'a mut [u8; WORD_KEPT]) -> io::Result<&'a [u8]>
    ensures { IfOk result (λ w. length w.now ≤ 4096) }
{
    let length = rt.arg(index, room).map_err(no_word)?;
    Ok(&room[..length])
}

// How many words the command has, the program's name among them.
fn word_count(rt: &HostRuntime) -> usize {
    (0..usize::MAX)
        .find(|i| matches!(rt.arg(*i, &mut []), Err(FillError::NotPresent)))
        .unwrap_or(usize::MAX)
}

// Opens a file for reading.
fn open(rt: &HostRuntime, path: &[u8]) -> io::Result<File> {
    let name = str::from_utf8(path).map_err(|_| io::Error::from_raw_os_error(NOT_TEXT))?;
    File::open(rt, name)
}

// Answers standard input by an open file; path is its name.
fn answer<'a>(
    rt: &HostRuntime,
    file: &mut File,
    path: &'a [u8],
    command: Command,
) -> Result<(), Failure<'a>> {
    let mut front = [0u8; FILE_KEPT];
    let length = read_file(file, &mut front).map_err(|error| Failure::Of(path, error))?;
    let mut input = [0u8; LINE_KEPT];
    let end = read_line(&mut rt.stdin(), &mut input).map_err(|error| Failure::Of(
        b"standard input",
        error,
    ))?;
    let mut out = Answer::new();
    answer_text(&front[..length], &input[..end], command, &mut out);
    rt.write_all(&out)
        .map_err(|error| Failure::Of(b"standard output", error))
}

// Opens the file that the second word names, and answers by it.
fn run<'a>(
    rt: &HostRuntime,
    command: Command,
    room: &'a mut [u8; WORD_KEPT],
) -> Result<(), Failure<'a>> {
    let path = word(rt, 1, room).map_err(|error| Failure::Of(b"FILE", error))?;
    let mut file = open(rt, path).map_err(|error| Failure::Of(path, error))?;
    // a file gets the number of standard input only where that is closed
    if file.as_raw_fd() == 0 {
        return Err(Failure::Closed);
    }
    answer(rt, &mut file, path, command)
}

fn main(rt: HostRuntime) {
    let words = word_count(&rt);
    let mut third = [0u8; WORD_KEPT];
    let mut fourth = [0u8; WORD_KEPT];
    let mut fifth = [0u8; WORD_KEPT];
    let command = command_of(
        words,
        word(&rt, 2, &mut third).unwrap_or(&[]),
        word(&rt, 3, &mut fourth).unwrap_or(&[]),
        word(&rt, 4, &mut fifth).unwrap_or(&[]),
    );
    let mut path = [0u8; WORD_KEPT];
    let done = match command {
        Some(command) => run(&rt, command, &mut path),
        None => Err(Failure::Usage),
    };
    if let Err(failure) = done {
        say(&rt, failure);
    }
}
