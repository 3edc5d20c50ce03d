// What is kept of a line that a read breaks off in.

ghost use Rattle.std.specs.Prelude.{◌≡◌, ◌==◌, length};
ghost use Rattle.line_reads.specs.Reads as reads;

use std::marker::Model;

// The start of a line: its first bytes, as many as there is room for. A longer line is of another
// form, and so is its start, so nothing is lost.
// A buffer with its length by hand, since a start is Copy, and no vector of the kit is.
#[derive(Clone, Copy)]
pub struct Start {
    bytes: [u8; 32],
    len: usize,
}

// A contract sees its bytes alone. The buffer is nought after them, so they tell all of it.
impl Model for Start {
    ghost use Rattle.std.specs.Prelude.{List, ℕ};

    ghost Value = { List ℕ };

    ghost use Rattle.line_reads.specs.Reads.{held, Padded, fields_of};
    ghost use Rattle.line_reads.specs.Paddings.{fields_back};

    ghost view = { held };

    ghost invariant = { Padded };

    ghost inverse = { fields_of };

    ghost inverse_ok = { fields_back };
}

impl Start {
    // No line has begun.
    pub(crate) fn new() -> Start
        ensures { result ≡ reads.none }
    {
        Start {
            bytes: [0; 32],
            len: 0,
        }
    }

    // Whether no line has begun.
    pub(crate) fn is_empty(&self) -> bool
        ensures { result ≡ (length self.now == 0) }
    {
        self.len == 0
    }

    // Its bytes.
    pub(crate) fn as_slice(&self) -> &[u8]
        ensures { result.now ≡ self.now }
    {
        &self.bytes[..self.len]
    }

    // One byte more, where there is room for it.
    pub(crate) fn push(&mut self, b: u8)
        ensures { self.new ≡ reads.with_byte self.old b }
    {
        if self.len < 32 {
            self.bytes[self.len] = b;
            self.len += 1;
        }
    }
}
