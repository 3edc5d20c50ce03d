#![tactic(auto)]

// Sine and cosine up to half a quarter, docs/RULES.md, "Sine and cosine": the two rows, and the
// pair that they give. Angles are in µas, all else in parts of 2^30.

pub mod parts;
mod rows;
