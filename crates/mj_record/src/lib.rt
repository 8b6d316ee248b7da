//! Entries of a journal as bytes: what was written is read as the same entry again, and nothing else is read.
#![tactic(auto)]

mod entry;
mod fact;
mod mail;

pub use entry::read_entry;
pub use mj_entry_items::EntryFault;
pub use mj_entry_len::entry_len;
pub use mj_entry_write::write_entry;
