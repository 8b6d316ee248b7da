//! Tests of the machine with the rules of a site.
#![tactic(auto)]

#[cfg(test)]
mod changes;
#[cfg(test)]
mod crashes;
#[cfg(test)]
mod events;
#[cfg(test)]
mod runs;
#[cfg(test)]
mod sites;
