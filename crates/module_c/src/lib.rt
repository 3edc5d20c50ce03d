#![tactic(auto)]

// What C calls of `module`, as an archive: each function is that of `module` by its C name, with
// its clauses, and calls it, since no crate above can call an export. include/turbelicus.h says the
// same in C.

pub mod clocks;
pub mod lists;
pub mod observed;
pub mod places;
pub mod probe;
pub mod turns;
