//! The matchers of a configuration: conditions with their arguments, and composites of matchers.
#![tactic(auto)]

mod arguments;
mod conditions;
mod matchers;
mod numbers;
mod words;

pub use matchers::matcher;
