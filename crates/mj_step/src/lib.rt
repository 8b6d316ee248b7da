//! The rules of the container: what one step makes of a mail under a plan, where remote hosts answer by a table.
#![tactic(auto)]

mod james_rules;
mod staging;
mod stepping;

pub use james_rules::JamesRules;
