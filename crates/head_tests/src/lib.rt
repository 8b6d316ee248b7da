//! Tests of heads and of their plain lines.
#![tactic(auto)]

#[cfg(test)]
mod heads;
#[cfg(test)]
mod plain_lines;
#[cfg(test)]
mod texts;
