#![tactic(auto)]

// What the module's firmware in C calls, with plain numbers and slices. include/turbelicus.h says
// the same in C.
//
// No function asks anything of its numbers. An answer that may be refused is a struct: the number
// of the refusal and noughts, or 0 and the values. A refused weather record comes back as it was.

pub mod clocks;
pub mod lists;
pub mod observed;
pub mod places;
pub mod probe;
pub mod turns;
