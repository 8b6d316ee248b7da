//! The lines that the program writes: of facts, of refused files, and of faults.
#![tactic(auto)]

mod facts;
mod faults;
mod files;

pub use facts::{fact_line, put_fact_lines};
pub use faults::{Fault, fault_line, read_line, usage_line};
pub use files::{Refusal, long_name_line, put_refused_line, refused_line};
