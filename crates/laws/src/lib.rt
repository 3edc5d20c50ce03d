#![tactic(auto)]

// What is known of the rules of document 01, in specs/. There is no code.
