// The list file: its count, a star by its index, and a file written at once.
// Each call looks at the whole file, so that its answer depends on nothing that was asked before.

ghost use Rattle.std.specs.Prelude.{◌≡◌};
ghost use Rattle.rules.specs.Answers.{listed_answer, listed_star_answer};
ghost use Rattle.rules.specs.ListReading.{list_count, list_star};
ghost use Rattle.rules.specs.ListWriting.{numbers_written, room_after_numbers};
ghost use Rattle.answers.specs.Answers.{counted_out, starred_out, written_out};

use answers::lists::{TurbelicusCounted, TurbelicusStarred, TurbelicusWritten};

// How many records a list file has.
//
// Given: file, any bytes.
// Returned: 0 to 64; or refusal 9, 10 or 5.
// Rule: docs/RULES.md, "Lists".
pub fn turbelicus_list_count(file: &[u8]) -> TurbelicusCounted
    ensures { result ≡ counted_out (listed_answer (list_count file.now)) }
{
    list_file::list_count(file).into()
}

// A star of a list file.
//
// Given: file, any bytes; index, from 0.
// Returned: the star; or refusal 9, 10 or 5; or 11 where the file has no such record.
// Rule: docs/RULES.md, "Lists".
pub fn turbelicus_list_star(file: &[u8], index: usize) -> TurbelicusStarred
    ensures { result ≡ starred_out (listed_star_answer (list_star file.now index)) }
{
    list_file::list_star(file, index).into()
}

// A list file of a row of numbers, four to a star, written at once.
//
// Given: numbers, right ascension and declination in µas and their motions in µas a year, of each
// star; room, any.
// Returned: the file's length, and the file at the start of room; the bytes past it stay. Or
// refusal 5 or 11, and all bytes stay; 11 also where the last star has not all its numbers.
// Rule: docs/RULES.md, "Lists".
pub fn turbelicus_list_write(numbers: &[i64], room: &mut [u8]) -> TurbelicusWritten
    ensures { (result ≡ written_out (listed_answer
        (numbers_written numbers.now room.old)))
        × (room.new ≡ room_after_numbers numbers.now room.old) }
{
    list_from_numbers::list_write(numbers, room).into()
}
