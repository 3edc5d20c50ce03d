#![tactic(auto)]

// The exports of `tests_functions`, as an archive for the tests alone. It is not shipped. Each
// stands here again because C's linker asks for an export, and no crate above can call one.

pub mod aberration;
pub mod angle_sets;
pub mod angles;
pub mod days;
pub mod lines;
pub mod moments;
pub mod numbers;
pub mod pairs;
