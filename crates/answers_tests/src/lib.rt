//! Tests of the table of answers and of replies.
#![tactic(auto)]

#[cfg(test)]
mod faults;
#[cfg(test)]
mod look_ups;
#[cfg(test)]
mod replies;
#[cfg(test)]
mod texts;
