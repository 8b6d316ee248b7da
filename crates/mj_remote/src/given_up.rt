//! The recipients that are given up: their sender is told, or they are dropped.
ghost use Rattle.std.specs.Prelude.{◌≡◌, ◌+◌, ◌<◌, ◌^◌, map, OnOk};
ghost use Rattle.mj_mail.specs.Outcome.{both};
ghost use Rattle.mj_container.specs.Settling.{failure, recipients_of};
ghost use Rattle.mj_remote.specs.Fates.{fated};
ghost use Rattle.mj_remote.specs.Parts.{discarded, told};
ghost use Rattle.mj_remote.specs.declared.fate.Fate.TheVariants.{GivenUp};

use crate::answers::{chosen, failures};
use crate::fate::Fate;
use mj_address::Recipients;
use mj_bounce::bounce_mail;
use mj_fields::Memory;
use mj_mail::{Fact, Failure, Mail, Outcome, Reply, Why};
use mj_plan::Plan;
use std::alloc::Global;

/// Tells the sender of the recipients that are given up (RFC 5321, 6.1), if there are any. Where the sender is null, they are
/// dropped (RFC 5321, 4.5.5).
pub fn put_notice(
    alloc: Global,
    plan: &Plan,
    mail: &Mail,
    delay: Option<u64>,
    replies: &[Reply],
    out: &mut Outcome,
) -> Result<(), Memory>
    requires hops { mail.now.hops + 1 < 2 ^ 32 }
    requires due { mail.now.due < 253_402_300_800_000 }
    ensures { OnOk result (out.new ≡ both out.old (told plan.now mail.now (recipients_of (fated GivenUp delay mail.now.recipients replies.now))
        (map failure (fated GivenUp delay mail.now.recipients replies.now)))) }
{
    let recipients = chosen(alloc, Fate::GivenUp, delay, &mail.recipients, replies)?;
    let failed = failures(alloc, delay, mail.recipients.as_slice(), replies)?;
    put_told(alloc, plan, mail, recipients, &failed, out)
}

/// Tells the sender of these recipients, if there are any.
fn put_told(
    alloc: Global,
    plan: &Plan,
    mail: &Mail,
    recipients: Recipients,
    failed: &[Failure],
    out: &mut Outcome,
) -> Result<(), Memory>
    requires hops { mail.now.hops + 1 < 2 ^ 32 }
    requires due { mail.now.due < 253_402_300_800_000 }
    ensures { OnOk result (out.new ≡ both out.old (told plan.now mail.now recipients failed.now)) }
{
    if recipients.is_empty() {
        return Ok(());
    }
    match bounce_mail(alloc, plan, mail, failed)? {
        Some(notice) => {
            out.facts.push(Fact::Bounce { recipients })?;
            out.children.push(notice)
        }
        None => out.facts.push(Fact::Dropped {
            why: Why::NoReturnPath,
            recipients,
        }),
    }
}

/// Drops the recipients that are given up, if there are any.
pub fn put_discarded(
    alloc: Global,
    mail: &Mail,
    delay: Option<u64>,
    replies: &[Reply],
    out: &mut Outcome,
) -> Result<(), Memory>
    ensures { OnOk result (out.new ≡ both out.old (discarded (recipients_of (fated GivenUp delay mail.now.recipients replies.now)))) }
{
    let recipients = chosen(alloc, Fate::GivenUp, delay, &mail.recipients, replies)?;
    if recipients.is_empty() {
        return Ok(());
    }
    out.facts.push(Fact::Dropped {
        why: Why::Discarded,
        recipients,
    })
}
