// Why the system refused, in its own words.

use arrayvec::ArrayString;
use std::fmt::Write;
use std::{fmt, io};

// More than std ever says: at most 256 bytes of words, and the error's number.
const SAID_ROOM: usize = 320;

// The words alone, where std adds the error's number after them.
#[derive(Clone, Copy)]
pub struct Reason(pub io::Error);

impl fmt::Display for Reason {
    fn fmt<W: fmt::Write>(&self, f: &mut fmt::Formatter<W>) -> fmt::Result {
        let mut said = ArrayString::<SAID_ROOM>::new();
        let error = self.0;
        write!(said, "{error}")?;
        let text = said.as_str();
        match text.split_once(" (os error ") {
            Some((words, _)) => f.write_str(words),
            None => f.write_str(text),
        }
    }
}
