//! The mailets of a configuration: classes with their parameters.
#![tactic(auto)]

mod delivery;
mod mailets;
mod named;
mod params;

pub use mailets::mailet_of;
