//! Mails: their names, what a processor finds in them, what becomes of them, the rules by which it does, and the
//! meaning of a mail as the list of all facts about it.
#![tactic(auto)]

mod attribute_laws;
mod attributes;
mod entry;
mod fact;
mod failure;
mod limits;
mod line;
mod mail;
mod name;
mod number;
mod reply;
mod rules;

pub use attribute_laws::{
    changed_attributes_keep_other_values, changed_attributes_keep_their_form,
};
pub use attributes::{Attributes, MAX_ATTRIBUTES};
pub use entry::{Cause, Entry};
pub use fact::{Fact, Outcome, Why};
pub use failure::Failure;
pub use limits::{MAX_BODY, MAX_DONE, MAX_ERROR, MAX_HEAD, MAX_PAYLOAD, MAX_RECIPIENTS};
pub use line::{put_address, put_recipients, wire_line};
pub use mail::{Body, Mail, NewMail, Stage, copy_envelope, copy_message, copy_sender};
pub use name::{Name, name_text, put_number};
pub use reply::{Class, MAX_REPLY_TEXT, Reply, ReplyFault};
pub use rules::{Rules, Stages, replies_to};
