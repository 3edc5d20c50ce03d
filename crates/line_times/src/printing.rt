// What `times` prints for a line, as a text.

ghost use Rattle.std.specs.Prelude.{◌≡◌};
ghost use Rattle.rules.specs.Times as rule;
ghost use Rattle.line_times.specs.Printed.{answer_to};

use arrayvec::ArrayVec;
use decimals::{append_answer, append_refused, refused};
use rules::{Instants, Moment, Refusal};

// The instants of a moment on a day, or the refusal.
fn answer(day: i64, instants: Result<Instants, Refusal>) -> ArrayVec<u8, 64>
    ensures { result.items ≡ rule.answer_line day instants }
{
    let mut text = ArrayVec::new();
    match instants {
        Ok(at) => append_answer(day, at.ut.0, at.tt.0, &mut text),
        Err(r) => append_refused(refusals::number(r), &mut text),
    }
    text
}

// The answer of a moment.
fn answer_to(moment: Moment) -> ArrayVec<u8, 64>
    ensures { result.items ≡ answer_to moment }
{
    match calendar::day_of(moment.date) {
        Ok(day) => answer(day, instants::instants(moment)),
        Err(r) => refused(refusals::number(r)),
    }
}

// The answer of a line.
pub fn printed(line: Option<Moment>) -> ArrayVec<u8, 64>
    ensures { result.items ≡ rule.printed line }
{
    match line {
        Some(moment) => answer_to(moment),
        None => refused(0),
    }
}
