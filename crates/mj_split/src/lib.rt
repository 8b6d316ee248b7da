//! What the steps of a processor make of a mail: each splits it by its matcher, and serves the part that is taken.
#![tactic(auto)]

mod judge;
mod leave;
mod run;
mod settle;
mod step;
mod step_at;
mod texts;

pub use run::run_processor;
