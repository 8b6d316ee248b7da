//! Reads the configuration of a mail service: a plan, or the first thing that is wrong with it.
#![tactic(auto)]

mod fault;
mod header;
mod plan;
mod processors;
mod rewrite;
mod spool;
mod steps;

pub use mj_config_walk::{PlanFault, PlanKind};
pub use plan::{MAX_CONFIGURATION, read_plan};
