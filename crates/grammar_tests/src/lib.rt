//! Tests of addresses, delays, moments, dates and mail files.
#![tactic(auto)]

#[cfg(test)]
mod addresses;
#[cfg(test)]
mod delays;
#[cfg(test)]
mod mail_files;
#[cfg(test)]
mod texts;
#[cfg(test)]
mod times;
