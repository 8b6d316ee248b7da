//! Counts that no item passes, found without going over the fields of its head.
ghost use Rattle.std.specs.Prelude.{◌≤◌, length};
ghost use Rattle.mj_mail.specs.Entry.{done_form, fact_form, head_form, list_form, mail_form, message_form};
ghost use Rattle.mj_entry_len.specs.Stored.{stored};

use crate::fact::{fact_len, replies_len};
use crate::mail::{body_len, envelope_len, name_len, standing_len};
use crate::parts::bytes_len;
use mj_fields::Items;
use mj_head::Head;
use mj_mail::{Body, Fact, Mail, Name, Outcome, Reply};

/// No head has more bytes: a field has at least three bytes in the written form.
#[tactic(auto, using(crate::proofs::Heads::fields_len, crate::proofs::Heads::fields_few))]
fn head_most(head: &Head) -> u64
    ensures { stored (length (head_form head.now)) ≤ result }
{
    let written = head.written_len() as u64;
    let lengths = (written / 3).saturating_mul(5);
    written.saturating_add(lengths).saturating_add(4)
}

/// No message has more bytes.
fn message_most(head: &Head, body: &Body) -> u64
    ensures { stored (length (message_form head.now body.now)) ≤ result }
{
    head_most(head).saturating_add(body_len(body))
}

/// No fact has more bytes.
fn fact_most(fact: &Fact) -> u64
    ensures { stored (length (fact_form fact.now)) ≤ result }
{
    match fact {
        Fact::Deposit {
            repository,
            sender,
            recipients,
            head,
            body,
        } => bytes_len(repository.as_slice())
            .saturating_add(envelope_len(sender, recipients))
            .saturating_add(message_most(head, body))
            .saturating_add(1),
        _ => fact_len(fact),
    }
}

/// No list of facts has more bytes.
fn facts_most(facts: &[Fact]) -> u64
    ensures { stored (length (list_form fact_form facts.now)) ≤ result }
{
    let mut total: u64 = 4;
    for fact in facts {
        total = total.saturating_add(fact_most(fact));
    }
    total
}

/// No mail has more bytes.
fn mail_most(mail: &Mail) -> u64
    ensures { stored (length (mail_form mail.now)) ≤ result }
{
    name_len(&mail.name)
        .saturating_add(envelope_len(&mail.sender, &mail.recipients))
        .saturating_add(standing_len(&mail.attributes, &mail.stage, mail.error.as_slice()))
        .saturating_add(message_most(&mail.head, &mail.body))
        .saturating_add(12)
}

/// No list of mails has more bytes.
fn mails_most(mails: &[Mail]) -> u64
    ensures { stored (length (list_form mail_form mails.now)) ≤ result }
{
    let mut total: u64 = 4;
    for mail in mails {
        total = total.saturating_add(mail_most(mail));
    }
    total
}

/// No entry of a step has more bytes.
pub(crate) fn done_most(name: &Name, replies: &Items<Reply>, outcome: &Outcome) -> u64
    ensures { stored (length (done_form name.now replies.now outcome.now)) ≤ result }
{
    name_len(name)
        .saturating_add(replies_len(replies.as_slice()))
        .saturating_add(facts_most(outcome.facts.as_slice()))
        .saturating_add(mails_most(outcome.children.as_slice()))
        .saturating_add(1)
}
