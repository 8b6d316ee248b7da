//! The lists of a machine that carries mails: its entries, its claims and the mails that wait. It is a model for tests, on small
//! lists, and each call may go over a whole list.
#![tactic(auto)]

mod accepting;
mod claim;
mod entries;
mod mails;

pub use accepting::is_acceptable;
pub use claim::{Claim, claims_with_attempt, claims_without, find_claim, has_claim, is_same};
pub use entries::{count_accepted, count_epochs, has_file, is_change};
pub use mails::{all_allowed, find_mail, find_next, is_remote, others_of, push_copies};
