//! Which recipients of a mail a matcher takes: its truth for each of them, or the first of its conditions that fails.
#![tactic(auto)]

mod about_mail;
mod about_recipient;
mod composites;
mod conditions;
mod evaluation;
mod failing;
mod mask;
mod match_error;
mod numerals;

pub use evaluation::evaluate;
pub use mask::Mask;
pub use match_error::MatchError;
