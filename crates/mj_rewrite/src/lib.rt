//! What an address becomes by the mappings of a plan.
#![tactic(auto)]

mod addresses;
mod expand;

pub use addresses::{resolve, rewrite};
pub use mj_container::RewriteFault;
