//! Tests of the plan and of the reading of a configuration.
#![tactic(auto)]

#[cfg(test)]
mod faults;
#[cfg(test)]
mod forms;
#[cfg(test)]
mod limits;
#[cfg(test)]
mod look_ups;
#[cfg(test)]
mod texts;
