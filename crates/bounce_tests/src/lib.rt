//! Tests of notices about a mail.
#![tactic(auto)]

#[cfg(test)]
mod notices;
#[cfg(test)]
mod rows;
