//! What a configuration says: the walk through it, place by place and key by key, to a plan or to its first fault. It has
//! definitions, lemmas about them and the types that they speak of, and no code.
#![tactic(auto)]

mod classes;
mod fault;
mod names;
mod spool;

pub use classes::Class;
pub use fault::{PlanFault, PlanKind, Refusal};
pub use names::{Argued, Name, Plain};
pub use spool::Spool;
