#![tactic(auto)]

// What a machine word holds, in specs/. There is no code.
