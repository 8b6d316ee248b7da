//! The recipients of an attempt by what the replies for them say.
ghost use Rattle.std.specs.Prelude.{◌≡◌, map, IfOk};
ghost use Rattle.mj_address.specs.Same.{AreRecipients};
ghost use Rattle.mj_container.specs.Settling.{failure as failure_of, recipients_of};
ghost use Rattle.mj_remote.specs.Fates.{fated};
ghost use Rattle.mj_remote.specs.declared.fate.Fate.TheVariants.{GivenUp};

use crate::fate::Fate;
use mj_address::{Address, Recipients};
use mj_fields::{Bytes, Memory};
use mj_mail::{Failure, Reply};
use std::alloc::Global;

/// The recipients of this fate, in order.
#[tactic(auto, using(crate::proofs::Chosen::chosen_recipients))]
pub fn chosen(
    alloc: Global,
    fate: Fate,
    delay: Option<u64>,
    recipients: &Recipients,
    replies: &[Reply],
) -> Result<Recipients, Memory>
    ensures { IfOk result (λ chosen. chosen ≡ recipients_of (fated fate delay recipients.now replies.now)) }
{
    let addresses = addresses(alloc, fate, delay, recipients.as_slice(), replies)?;
    Ok(Recipients::of_different(addresses))
}

/// Copies of the addresses of this fate, in order.
fn addresses(
    alloc: Global,
    fate: Fate,
    delay: Option<u64>,
    recipients: &[Address],
    replies: &[Reply],
) -> Result<Vec<Address>, Memory>
    ensures { IfOk result (λ chosen. chosen.items ≡ recipients_of (fated fate delay recipients.now replies.now)) }
{
    let mut chosen = Vec::new(alloc);
    for (recipient, reply) in recipients.iter().zip(replies) {
        if fate.meets(delay, reply.class()) {
            chosen.push(recipient.copy(alloc)?)?;
        }
    }
    Ok(chosen)
}

/// Why each recipient was given up, in order.
pub fn failures(
    alloc: Global,
    delay: Option<u64>,
    recipients: &[Address],
    replies: &[Reply],
) -> Result<Vec<Failure>, Memory>
    ensures { IfOk result (λ failures. failures.items ≡ map failure_of (fated GivenUp delay recipients.now replies.now)) }
{
    let mut failures = Vec::new(alloc);
    for (recipient, reply) in recipients.iter().zip(replies) {
        if Fate::GivenUp.meets(delay, reply.class()) {
            failures.push(failure(alloc, recipient, reply)?)?;
        }
    }
    Ok(failures)
}

/// Why a recipient was given up: its reply.
fn failure(alloc: Global, recipient: &Address, reply: &Reply) -> Result<Failure, Memory>
    ensures { IfOk result (λ failure. failure ≡ failure_of (recipient.now, reply.now)) }
{
    let recipient = recipient.copy(alloc)?;
    let mut reason = Bytes::new(alloc);
    reply.put(alloc, &mut reason)?;
    Ok(Failure { recipient, reason })
}

/// Each recipient that was given up behind its reply, in order.
pub fn pairs(
    alloc: Global,
    delay: Option<u64>,
    recipients: &[Address],
    replies: &[Reply],
) -> Result<Vec<(Reply, Address)>, Memory>
    ensures { IfOk result (λ pairs. pairs.items ≡ map (λ answer. (answer.1, answer.0)) (fated GivenUp delay recipients.now replies.now)) }
{
    let mut pairs = Vec::new(alloc);
    for (recipient, reply) in recipients.iter().zip(replies) {
        if Fate::GivenUp.meets(delay, reply.class()) {
            pairs.push(pair(alloc, recipient, reply)?)?;
        }
    }
    Ok(pairs)
}

/// A copy of a recipient behind a copy of its reply.
fn pair(alloc: Global, recipient: &Address, reply: &Reply) -> Result<(Reply, Address), Memory>
    ensures { IfOk result (λ pair. pair ≡ (reply.now, recipient.now)) }
{
    let reply = reply.copy(alloc)?;
    let recipient = recipient.copy(alloc)?;
    Ok((reply, recipient))
}
