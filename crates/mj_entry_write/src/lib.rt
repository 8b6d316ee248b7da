//! Entries of a journal, written as bytes.
#![tactic(auto)]

mod entry;
mod fact;
mod mail;
mod parts;

pub use entry::write_entry;
