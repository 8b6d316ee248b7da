//! What becomes of a mail after an attempt to send it to a host.
#![tactic(auto)]

mod answers;
mod attempt;
mod fate;
mod given_up;
mod retry;
mod sent;
mod sent_back;
mod settling;

pub use settling::settle;
