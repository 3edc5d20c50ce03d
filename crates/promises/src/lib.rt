// What is promised, in specs/: each statement in full, proved by citing the crates below. In
// proofs/ stand the theorems that rest on what a must-fail edit of specs/ changes. There is no
// code.

#![tactic(auto)]
