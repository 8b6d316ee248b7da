//! Items put together by a key that they have in common.
#![tactic(auto)]

mod groups;

pub use groups::grouped;
