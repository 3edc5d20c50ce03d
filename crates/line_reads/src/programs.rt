// What the programs differ in: the name, the header, and the answer to a line.

ghost use Rattle.std.specs.Prelude.{◌≡◌};
ghost use Rattle.line_reads.specs.Reads.{name_of, header_line, answered_by};

use crate::Program;
use arrayvec::ArrayVec;

impl Program {
    // The name that it is called by.
    pub fn name(self) -> &'static str
        ensures { result.now ≡ name_of self }
    {
        match self {
            Program::Times => "times",
            Program::Dates => "dates",
        }
    }

    // The header with its end; `dates` has none.
    #[tactic(auto, unfolding(crate::specs::Reads::header_line, rules::specs::Times::ended))]
    pub(crate) fn header(self) -> &'static [u8]
        ensures { result.now ≡ header_line self }
    {
        match self {
            Program::Times => b"day ut tt\n",
            Program::Dates => b"",
        }
    }

    // The answer of a line, without its end.
    #[tactic(auto, unfolding(crate::specs::Reads::answered_by))]
    pub(crate) fn answer(self, line: &[u8]) -> ArrayVec<u8, 64>
        ensures { result.items ≡ answered_by self line.now }
    {
        match self {
            Program::Times => line_times::printed_for(line),
            Program::Dates => line_dates::date_line(line),
        }
    }
}
