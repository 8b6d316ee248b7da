//! Putting replies and facts at the end of an entry.
ghost use Rattle.std.specs.Prelude.{◌≡◌, ◌++◌, ◌≤◌, true, length, OnOk};
ghost use Rattle.std.specs.Int.{w8, to_le_bytes};
ghost use Rattle.std.specs.List.{AllByRecursion, flat_map, list_all};
ghost use Rattle.mj_entry_rows.specs.Forms.{AreAddressed, AreEach, IsFact, IsReply};
ghost use Rattle.mj_mail.specs.declared.fact.Fact.TheVariants.{Deposit, Dropped, FellOff, Retry, Sent};
ghost use Rattle.mj_mail.specs.declared.limits.TheConstants.{MAX_PAYLOAD};
ghost use Rattle.mj_mail.specs.Entry.{fact_form, list_form, recipients_form, reply_form, why_form};
ghost use Rattle.mj_mail.specs.Reply.{is_reply};
ghost use Rattle.mj_entry_write.specs.Whole.{is_addressed, is_whole_fact};

use crate::mail::{put_envelope, put_message};
use crate::parts::{put_address, put_count, put_long, put_recipients, put_word};
use mj_address::{Address, Domain, Recipients};
use mj_fields::{Bytes, Items, Memory, put_bytes, put_u8, put_u16};
use mj_head::Head;
use mj_mail::{Body, Fact, Reply, Why};

/// Puts a reply: its code and its text.
fn put_reply(out: &mut Bytes, reply: &Reply) -> Result<(), Memory>
    requires { length (reply_form reply.now) ≤ MAX_PAYLOAD }
    ensures { OnOk result (out.new ≡ out.old ++ reply_form reply.now) }
{
    put_u16(out, reply.code)?;
    put_bytes(out, reply.text.as_slice())
}

/// Puts a list of replies: how many there are, and the replies.
#[tactic(auto, using(crate::proofs::Written::replies_few, crate::proofs::Written::replies_each))]
pub(crate) fn put_replies(out: &mut Bytes, replies: &Items<Reply>) -> Result<(), Memory>
    requires whole { list_all is_reply replies.now ≡ true }
    requires small { length (list_form reply_form replies.now) ≤ MAX_PAYLOAD }
    ensures written { OnOk result (out.new ≡ out.old ++ list_form reply_form replies.now) }
    ensures form { OnOk result (AreEach IsReply replies.now) }
{
    put_count(out, replies.len())?;
    put_each_reply(out, replies.as_slice())
}

fn put_each_reply(out: &mut Bytes, replies: &[Reply]) -> Result<(), Memory>
    requires { length (flat_map reply_form replies.now) ≤ MAX_PAYLOAD }
    ensures { OnOk result (out.new ≡ out.old ++ flat_map reply_form replies.now) }
{
    for reply in replies {
        put_reply(out, reply)?;
    }
    Ok(())
}

/// Puts a fact: a number for its kind, and what it tells.
pub(crate) fn put_fact(out: &mut Bytes, fact: &Fact) -> Result<(), Memory>
    requires whole { is_whole_fact fact.now ≡ true }
    requires small { length (fact_form fact.now) ≤ MAX_PAYLOAD }
    ensures written { OnOk result (out.new ≡ out.old ++ fact_form fact.now) }
    ensures form { OnOk result (IsFact fact.now) }
{
    match fact {
        Fact::Deposit {
            repository,
            sender,
            recipients,
            head,
            body,
        } => put_deposit(
            out,
            repository.as_slice(),
            (sender, recipients),
            (head, body),
        ),
        Fact::Sent {
            host,
            recipient,
            reply,
        } => put_sent(out, host, recipient, reply),
        Fact::Retry {
            host,
            recipients,
            attempt,
            due,
        } => put_retry(out, host, recipients, *attempt, *due),
        Fact::Bounce { recipients } => put_for(out, 3, recipients),
        Fact::Dropped { why, recipients } => put_dropped(out, *why, recipients),
        Fact::FellOff {
            processor,
            recipients,
        } => put_fell_off(out, processor.as_slice(), recipients),
        Fact::Looped { recipients } => put_for(out, 6, recipients),
        Fact::Overrun => put_u8(out, 7),
    }
}

/// Puts what was put into a repository: its name, an envelope and a message.
fn put_deposit(
    out: &mut Bytes,
    repository: &[u8],
    envelope: (&Option<Address>, &Recipients),
    message: (&Head, &Body),
) -> Result<(), Memory>
    requires whole { is_addressed envelope.1.now ≡ true }
    requires small { length (fact_form (Deposit repository.now envelope.0.now envelope.1.now message.0.now message.1.now)) ≤ MAX_PAYLOAD }
    ensures written { OnOk result (out.new ≡ out.old
        ++ fact_form (Deposit repository.now envelope.entry.0.now envelope.entry.1.now message.entry.0.now message.entry.1.now)) }
    ensures form { OnOk result
        (IsFact (Deposit repository.now envelope.entry.0.now envelope.entry.1.now message.entry.0.now message.entry.1.now)) }
{
    put_u8(out, 0)?;
    put_bytes(out, repository)?;
    put_envelope(out, envelope.0, envelope.1)?;
    put_message(out, message.0, message.1)
}

/// Puts that a host took a mail for this recipient.
fn put_sent(
    out: &mut Bytes,
    host: &Domain,
    recipient: &Address,
    reply: &Reply,
) -> Result<(), Memory>
    requires whole { is_reply reply.now ≡ true }
    requires small { length (fact_form (Sent host.now recipient.now reply.now)) ≤ MAX_PAYLOAD }
    ensures written { OnOk result (out.new ≡ out.old ++ fact_form (Sent host.now recipient.now reply.now)) }
    ensures form { OnOk result (IsFact (Sent host.now recipient.now reply.now)) }
{
    let _form = recipient.local();
    put_u8(out, 1)?;
    put_bytes(out, host.as_slice())?;
    put_address(out, recipient)?;
    put_reply(out, reply)
}

/// Puts that a mail is tried again for these recipients.
fn put_retry(
    out: &mut Bytes,
    host: &Domain,
    recipients: &Recipients,
    attempt: u32,
    due: u64,
) -> Result<(), Memory>
    requires whole { is_addressed recipients.now ≡ true }
    requires small { length (fact_form (Retry host.now recipients.now attempt due)) ≤ MAX_PAYLOAD }
    ensures written { OnOk result (out.new ≡ out.old ++ fact_form (Retry host.now recipients.now attempt due)) }
    ensures form { OnOk result (IsFact (Retry host.now recipients.now attempt due)) }
{
    put_u8(out, 2)?;
    put_bytes(out, host.as_slice())?;
    put_recipients(out, recipients)?;
    put_word(out, attempt)?;
    put_long(out, due)
}

/// Puts the number of a kind, and recipients.
fn put_for(out: &mut Bytes, kind: u8, recipients: &Recipients) -> Result<(), Memory>
    requires whole { is_addressed recipients.now ≡ true }
    requires small { length (recipients_form recipients.now) ≤ MAX_PAYLOAD }
    ensures written { OnOk result (out.new ≡ out.old ++ (to_le_bytes w8 kind ++ recipients_form recipients.now)) }
    ensures form { OnOk result (AreAddressed recipients.now) }
{
    put_u8(out, kind)?;
    put_recipients(out, recipients)
}

/// Puts that a mail was given up for these recipients.
fn put_dropped(out: &mut Bytes, why: Why, recipients: &Recipients) -> Result<(), Memory>
    requires whole { is_addressed recipients.now ≡ true }
    requires small { length (fact_form (Dropped why recipients.now)) ≤ MAX_PAYLOAD }
    ensures written { OnOk result (out.new ≡ out.old ++ fact_form (Dropped why recipients.now)) }
    ensures form { OnOk result (AreAddressed recipients.now) }
{
    put_u8(out, 4)?;
    put_why(out, why)?;
    put_recipients(out, recipients)
}

fn put_why(out: &mut Bytes, why: Why) -> Result<(), Memory>
    ensures { OnOk result (out.new ≡ out.old ++ why_form why) }
{
    match why {
        Why::Discarded => put_u8(out, 0),
        Why::NoReturnPath => put_u8(out, 1),
    }
}

/// Puts that a mail came past the last step of this processor.
fn put_fell_off(out: &mut Bytes, processor: &[u8], recipients: &Recipients) -> Result<(), Memory>
    requires whole { is_addressed recipients.now ≡ true }
    requires small { length (fact_form (FellOff processor.now recipients.now)) ≤ MAX_PAYLOAD }
    ensures written { OnOk result (out.new ≡ out.old ++ fact_form (FellOff processor.now recipients.now)) }
    ensures form { OnOk result (IsFact (FellOff processor.now recipients.now)) }
{
    put_u8(out, 5)?;
    put_bytes(out, processor)?;
    put_recipients(out, recipients)
}

/// Puts a list of facts: how many there are, and the facts.
#[tactic(auto, using(crate::proofs::Written::facts_few))]
pub(crate) fn put_facts(out: &mut Bytes, facts: &Items<Fact>) -> Result<(), Memory>
    requires whole { list_all is_whole_fact facts.now ≡ true }
    requires small { length (list_form fact_form facts.now) ≤ MAX_PAYLOAD }
    ensures written { OnOk result (out.new ≡ out.old ++ list_form fact_form facts.now) }
    ensures form { OnOk result (AreEach IsFact facts.now) }
{
    put_count(out, facts.len())?;
    put_each_fact(out, facts.as_slice())
}

fn put_each_fact(out: &mut Bytes, facts: &[Fact]) -> Result<(), Memory>
    requires whole { list_all is_whole_fact facts.now ≡ true }
    requires small { length (flat_map fact_form facts.now) ≤ MAX_PAYLOAD }
    ensures written { OnOk result (out.new ≡ out.old ++ flat_map fact_form facts.now) }
    ensures form { OnOk result (AllByRecursion IsFact facts.now) }
{
    for fact in facts {
        put_fact(out, fact)?;
    }
    Ok(())
}
