//! Tests of matching.
#![tactic(auto)]

#[cfg(test)]
mod composites;
#[cfg(test)]
mod conditions;
#[cfg(test)]
mod fields;
mod matchers;
#[cfg(test)]
mod rows;
