//! Notices about a mail: to its sender and to the postmaster.
#![tactic(auto)]

mod notice;
mod notice_body;
mod notice_head;

pub use notice::{bounce_mail, postmaster_mail};
