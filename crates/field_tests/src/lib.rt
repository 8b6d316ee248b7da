//! Tests of lists and bytes, and of the fields of records.
#![tactic(auto)]

#[cfg(test)]
mod fields;
#[cfg(test)]
mod lists;
