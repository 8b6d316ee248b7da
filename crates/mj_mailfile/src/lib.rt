//! Mail files: the envelope of a mail in SMTP's words, and its message.
#![tactic(auto)]

mod fault;
mod read;
mod write;

pub use fault::MailFault;
pub use read::{MAX_FILE, read_mail_file};
pub use write::write_mail_file;
