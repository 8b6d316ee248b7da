//! Tests of the outside: files, sinks and wires.
#![tactic(auto)]

#[cfg(test)]
mod outside;
