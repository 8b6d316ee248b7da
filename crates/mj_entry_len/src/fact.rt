//! Replies and facts.
ghost use Rattle.std.specs.Prelude.{◌≡◌, length};
ghost use Rattle.mj_mail.specs.declared.fact.Fact.TheVariants.{Sent};
ghost use Rattle.mj_mail.specs.Entry.{fact_form, list_form, reply_form};
ghost use Rattle.mj_entry_len.specs.Stored.{stored};

use crate::mail::{envelope_len, message_len};
use crate::parts::{address_len, bytes_len, recipients_len};
use mj_address::{Address, Domain};
use mj_mail::{Fact, Reply};

/// How many bytes a reply has: two for its code, and its text.
pub fn reply_len(reply: &Reply) -> u64
    ensures { result ≡ stored (length (reply_form reply.now)) }
{
    bytes_len(reply.text.as_slice()).saturating_add(2)
}

/// How many bytes a list of replies has: four for their number, and the replies.
pub(crate) fn replies_len(replies: &[Reply]) -> u64
    ensures { result ≡ stored (length (list_form reply_form replies.now)) }
{
    let mut total: u64 = 4;
    for reply in replies {
        total = total.saturating_add(reply_len(reply));
    }
    total
}

/// How many bytes a fact has: one for its kind, and what it tells.
pub fn fact_len(fact: &Fact) -> u64
    ensures { result ≡ stored (length (fact_form fact.now)) }
{
    match fact {
        Fact::Deposit {
            repository,
            sender,
            recipients,
            head,
            body,
        } => bytes_len(repository.as_slice())
            .saturating_add(envelope_len(sender, recipients))
            .saturating_add(message_len(head, body))
            .saturating_add(1),
        Fact::Sent {
            host,
            recipient,
            reply,
        } => sent_len(host, recipient, reply),
        Fact::Retry {
            host,
            recipients,
            ..
        } => bytes_len(host.as_slice())
            .saturating_add(recipients_len(recipients))
            .saturating_add(13),
        Fact::Bounce { recipients } | Fact::Looped { recipients } => {
            recipients_len(recipients).saturating_add(1)
        }
        Fact::Dropped { recipients, .. } => recipients_len(recipients).saturating_add(2),
        Fact::FellOff {
            processor,
            recipients,
        } => bytes_len(processor.as_slice())
            .saturating_add(recipients_len(recipients))
            .saturating_add(1),
        Fact::Overrun => 1,
    }
}

/// How many bytes the fact has that a host took a mail for this recipient.
fn sent_len(host: &Domain, recipient: &Address, reply: &Reply) -> u64
    ensures { result ≡ stored (length (fact_form (Sent host.now recipient.now reply.now))) }
{
    bytes_len(host.as_slice())
        .saturating_add(address_len(recipient))
        .saturating_add(reply_len(reply))
        .saturating_add(1)
}

/// How many bytes a list of facts has: four for their number, and the facts.
pub(crate) fn facts_len(facts: &[Fact]) -> u64
    ensures { result ≡ stored (length (list_form fact_form facts.now)) }
{
    let mut total: u64 = 4;
    for fact in facts {
        total = total.saturating_add(fact_len(fact));
    }
    total
}
