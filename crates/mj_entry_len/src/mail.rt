//! Mails and their items.
ghost use Rattle.std.specs.Prelude.{◌≡◌, length};
ghost use Rattle.mj_mail.specs.Entry.{attributes_form, body_form, envelope_form, list_form, mail_form, message_form, name_form, stage_form, standing_form};
ghost use Rattle.mj_entry_len.specs.Stored.{stored};

use crate::parts::{bytes_len, head_len, pair_len, recipients_len, sender_len};
use mj_address::{Address, Recipients};
use mj_head::Head;
use mj_mail::{Attributes, Body, Mail, Name, Stage};

/// How many bytes a name has: eight for its number, four for the length of its path, and four for each member.
#[tactic(auto, using(mj_mail::proofs::Entries::path_len))]
pub fn name_len(name: &Name) -> u64
    ensures { result ≡ stored (length (name_form name.now)) }
{
    (name.path.len() as u64)
        .saturating_mul(4)
        .saturating_add(12)
}

/// How many bytes attributes have: four for their number, and of each its name and its value.
fn attributes_len(attributes: &Attributes) -> u64
    ensures { result ≡ stored (length (attributes_form attributes.now)) }
{
    let mut total: u64 = 4;
    for (name, value) in attributes.as_slice() {
        total = total.saturating_add(pair_len(name.as_slice(), value.as_slice()));
    }
    total
}

/// How many bytes a stage has.
fn stage_len(stage: &Stage) -> u64
    ensures { result ≡ stored (length (stage_form stage.now)) }
{
    match stage {
        Stage::Process(state) => bytes_len(state.as_slice()).saturating_add(1),
        Stage::Remote { delivery, host, .. } => {
            pair_len(delivery.as_slice(), host.as_slice()).saturating_add(5)
        }
    }
}

/// How many bytes a body has: 13 where it came in, and as many as it has and five where it was made.
pub(crate) fn body_len(body: &Body) -> u64
    ensures { result ≡ stored (length (body_form body.now)) }
{
    match body {
        Body::Original { .. } => 13,
        Body::Made(bytes) => bytes_len(bytes.as_slice()).saturating_add(1),
    }
}

/// How many bytes an envelope has: the sender and the recipients.
pub(crate) fn envelope_len(sender: &Option<Address>, recipients: &Recipients) -> u64
    ensures { result ≡ stored (length (envelope_form sender.now recipients.now)) }
{
    sender_len(sender).saturating_add(recipients_len(recipients))
}

/// How many bytes a message has: the head and the body.
pub(crate) fn message_len(head: &Head, body: &Body) -> u64
    ensures { result ≡ stored (length (message_form head.now body.now)) }
{
    head_len(head).saturating_add(body_len(body))
}

/// How many bytes there are of what a mail has gathered on its way, and of where it stands.
pub(crate) fn standing_len(attributes: &Attributes, stage: &Stage, error: &[u8]) -> u64
    ensures { result ≡ stored (length (standing_form attributes.now stage.now error.now)) }
{
    attributes_len(attributes)
        .saturating_add(stage_len(stage))
        .saturating_add(bytes_len(error))
}

/// How many bytes a mail has.
pub fn mail_len(mail: &Mail) -> u64
    ensures { result ≡ stored (length (mail_form mail.now)) }
{
    name_len(&mail.name)
        .saturating_add(envelope_len(&mail.sender, &mail.recipients))
        .saturating_add(standing_len(&mail.attributes, &mail.stage, mail.error.as_slice()))
        .saturating_add(message_len(&mail.head, &mail.body))
        .saturating_add(12)
}

/// How many bytes a list of mails has: four for their number, and the mails.
pub(crate) fn mails_len(mails: &[Mail]) -> u64
    ensures { result ≡ stored (length (list_form mail_form mails.now)) }
{
    let mut total: u64 = 4;
    for mail in mails {
        total = total.saturating_add(mail_len(mail));
    }
    total
}
