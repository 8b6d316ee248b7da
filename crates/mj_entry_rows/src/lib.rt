//! The rows of a journal's entries: the form of each item, what it says, and that an item that was written is read again
//! and that nothing else is read. It has no code.
#![tactic(auto)]
