//! Words that the contracts of several crates share. It has specifications alone, and no code.
#![tactic(auto)]
