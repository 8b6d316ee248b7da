//! Heads of messages (RFC 5322, 2.2): reading, writing and changing their fields.
#![tactic(auto)]

mod builder;
mod cursor;
mod fault;
mod field;
mod fields;
mod head;
mod line;
mod near;
mod read;
mod text;
mod unfold;
mod walk;

pub use builder::HeadBuilder;
pub use fault::HeadFault;
pub use field::Field;
pub use head::{Head, write_head};
pub use line::first_line;
pub use read::{is_field_name, is_field_value, read_head, trim_end_blanks};
pub use unfold::trim_blanks;
pub use walk::Fields;
