#![tactic(auto)]

// Laws of whole numbers, in specs/. There is no code.
