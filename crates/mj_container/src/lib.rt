//! What the container makes of mails, from top to bottom: when a mail is sound for a plan, which recipients a matcher
//! takes, what a mailet gives, how a mail leaves, what the steps of a processor make of it, and what one step of a mail is.
//! Definitions, the types that they speak of, and the laws that follow; the crates of code cite them.
#![tactic(auto)]

mod rewrite_fault;
mod service;

pub use rewrite_fault::{MAX_RESULTS, MAX_ROUNDS, RewriteFault};
pub use service::{Onward, ServeError, Served, Unserved};
