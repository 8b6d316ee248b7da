//! The table of answers: what remote hosts answer at each attempt to send them a mail.
#![tactic(auto)]

mod answers;
mod fault;
mod keys;
mod read;
mod row;

pub use answers::Answers;
pub use fault::{AnswersFault, AnswersKind};
pub use read::MAX_ANSWERS;
pub use row::Row;
