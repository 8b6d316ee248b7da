//! A list of payloads on a disk, each added whole or not at all.
#![tactic(auto)]

mod fault;
mod frames;
mod gate;
mod load;
mod log;
mod walk;

pub use fault::{LogFault, LogRefused};
pub use log::Log;
