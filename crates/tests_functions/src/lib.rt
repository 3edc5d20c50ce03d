#![tactic(auto)]

// Functions for the tests alone: numbers, pairs, dates, lines of `times` and the angles of an
// instant, which `module` does not show. It is not shipped. A function whose rule asks something of
// its numbers tests that first, so that none relies on its caller.

pub mod aberration;
pub mod angle_sets;
pub mod angles;
pub mod days;
pub mod lines;
pub mod moments;
pub mod numbers;
pub mod pairs;
