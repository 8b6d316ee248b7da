//! Tests of rewriting.
#![tactic(auto)]

#[cfg(test)]
mod mappings;
#[cfg(test)]
mod plans;
#[cfg(test)]
mod results;
