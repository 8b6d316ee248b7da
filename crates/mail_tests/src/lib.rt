//! Tests of mails: their names, their attributes, and how many bytes the entries of their steps have.
#![tactic(auto)]

#[cfg(test)]
mod attributes;
#[cfg(test)]
mod entries;
#[cfg(test)]
mod names;
#[cfg(test)]
mod rows;
