//! The recipients that a host served.
ghost use Rattle.std.specs.Prelude.{◌≡◌, ◌++◌, map, IfOk, OnOk};
ghost use Rattle.mj_container.specs.Settling.{sent as sent_of};
ghost use Rattle.mj_remote.specs.Fates.{fated};
ghost use Rattle.mj_remote.specs.declared.fate.Fate.TheVariants.{Served};

use crate::fate::Fate;
use mj_address::{Address, Domain};
use mj_fields::{Items, Memory};
use mj_mail::{Fact, Reply};
use std::alloc::Global;

/// Puts down for each recipient that the host served that it took the mail, in order.
pub fn put_sent(
    alloc: Global,
    host: &Domain,
    delay: Option<u64>,
    recipients: &[Address],
    replies: &[Reply],
    facts: &mut Items<Fact>,
) -> Result<(), Memory>
    ensures { OnOk result (facts.new ≡ facts.old ++ map (sent_of host.now) (fated Served delay recipients.now replies.now)) }
{
    for (recipient, reply) in recipients.iter().zip(replies) {
        if Fate::Served.meets(delay, reply.class()) {
            facts.push(sent(alloc, host, recipient, reply)?)?;
        }
    }
    Ok(())
}

/// That the host took the mail for this recipient.
fn sent(alloc: Global, host: &Domain, recipient: &Address, reply: &Reply) -> Result<Fact, Memory>
    ensures { IfOk result (λ fact. fact ≡ sent_of host.now (recipient.now, reply.now)) }
{
    let host = host.copy(alloc)?;
    let recipient = recipient.copy(alloc)?;
    let reply = reply.copy(alloc)?;
    Ok(Fact::Sent {
        host,
        recipient,
        reply,
    })
}
