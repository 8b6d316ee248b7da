//! The plain lines of a head (RFC 5322, 2.2): those that its written form has as they stand, and the ends of its fields, both
//! found up to 64 bytes at a time.
#![tactic(auto)]

mod ends;
mod plain;

pub use ends::count_field_ends;
pub use plain::plain_lines;
