//! How many bytes the entry of a step and its items have in the journal, counted without writing them and without
//! memory. Each count stands at the last value of its type where it would be greater.
#![tactic(auto)]

mod done;
mod entry;
mod fact;
mod mail;
mod most;
mod parts;

pub use done::{done_fits, done_len};
pub use entry::entry_len;
pub use fact::{fact_len, reply_len};
pub use mail::{mail_len, name_len};
