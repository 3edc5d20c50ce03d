#![tactic(auto)]

// What the walks over lent memory have in common, in specs/. There is no code.
