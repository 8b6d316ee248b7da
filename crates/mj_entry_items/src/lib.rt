//! Items of an entry of a journal, taken off the front of bytes: numbers, strings, addresses, and the lists of them.
#![tactic(auto)]

mod fault;
mod lists;
mod reader;

pub use fault::EntryFault;
pub use lists::{take_attributes, take_head, take_name, take_recipients};
pub use reader::Reader;
