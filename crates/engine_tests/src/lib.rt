//! Tests of whole runs: words, files and a sink in, a status and what was written out.
#![tactic(auto)]

#[cfg(test)]
mod mailets;
#[cfg(test)]
mod remote;
#[cfg(test)]
mod runs;
#[cfg(test)]
mod settling;
#[cfg(test)]
mod splits;
pub mod sure;
