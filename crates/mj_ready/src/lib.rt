//! A queue of pairs of a moment and a key, which gives the pair that is due first.
#![tactic(auto)]

mod heap;
mod pair;
mod queue;
mod rows;
mod steps;

pub use queue::DueQueue;
pub use steps::Steps;
