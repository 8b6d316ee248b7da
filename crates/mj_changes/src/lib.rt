//! What mailets change of a mail: its attributes, its fields and its recipients.
#![tactic(auto)]

pub mod answers;
pub mod attributes;
pub mod fields;
pub mod recipients;

pub use mj_container::{Onward, ServeError, Served, Unserved};
