//! Tests of entries as bytes: their writing and their reading.
#![tactic(auto)]

#[cfg(test)]
mod bad;
#[cfg(test)]
mod entries;
#[cfg(test)]
mod samples;
#[cfg(test)]
mod texts;
