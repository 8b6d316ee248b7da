//! What each mailet makes of a mail.
#![tactic(auto)]

mod delivery;
mod deposits;
mod mailets;
mod notices;

pub use mailets::serve;
pub use mj_container::{Onward, ServeError, Served, Unserved};
