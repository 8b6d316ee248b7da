//! The values of a configuration, each read to what it says or to the first thing that is wrong with it: texts, numbers
//! and truth values, addresses, tables, lists, and names. Each call may also answer that memory ran out.
#![tactic(auto)]

mod arrays;
mod forms;
mod names;
mod parts;
mod tables;
mod values;

pub use arrays::{addresses_in, domains_in, local_parts_in};
pub use forms::{TextForm, formed};
pub use names::{Names, target};
pub use parts::{addresses, cut, domains, few, texts_formed};
pub use tables::tables_or_none;
pub use values::{
    address, domain, domain_value, is, local_part, moment, number, required, text, texts, truth,
    value_at,
};
