//! Mailets that send a notice about a mail.
ghost use Rattle.std.specs.Prelude.{◌≡◌, ◌<◌, ◌+◌, ◌^◌, ◌∷◌, [], Ok, IfOk};
ghost use Rattle.mj_container.specs.Notices.{bounce_of, failures as failures_of, postmaster_notice};
ghost use Rattle.mj_container.specs.Serving.{Gives, bounced as bounced_of, passed as passed_of};

use mj_address::Address;
use mj_bounce::{bounce_mail, postmaster_mail};
use mj_changes::answers::passed;
use mj_container::{Onward, ServeError, Served};
use mj_fields::{Bytes, Items, Memory};
use mj_mail::{Fact, Failure, Mail, Why};
use mj_plan::Plan;
use std::alloc::Global;

/// Sends a notice to the sender that the mail couldn't be delivered to any of its recipients, for this reason (RFC 5321, 6.1).
/// Where the sender is null no notice is sent, and the recipients are dropped: there is no path back. The mail itself goes on, or
/// ends.
pub fn bounce(
    alloc: Global,
    plan: &Plan,
    message: &Bytes,
    pass_through: bool,
    mail: Mail,
) -> Result<Served, ServeError>
    requires hops { mail.hops + 1 < 2 ^ 32 }
    requires due { mail.due < 253_402_300_800_000 }
    ensures { Gives result (Ok (bounced_of pass_through mail (bounce_of plan.now mail (failures_of message.now mail.recipients)))) }
{
    let notice = to_sender(alloc, plan, message, &mail)?;
    Ok(bounced(alloc, notice, pass_through, mail)?)
}

/// The notice to the sender, if there is one.
fn to_sender(
    alloc: Global,
    plan: &Plan,
    message: &Bytes,
    mail: &Mail,
) -> Result<Option<Mail>, Memory>
    requires hops { mail.now.hops + 1 < 2 ^ 32 }
    requires due { mail.now.due < 253_402_300_800_000 }
    ensures { IfOk result (λ notice. notice ≡ bounce_of plan.now mail.now (failures_of message.now mail.now.recipients)) }
{
    let failed = failures(alloc, message, mail.recipients.as_slice())?;
    bounce_mail(alloc, plan, mail, &failed)
}

/// A failure for each recipient, in order, with the same reason.
fn failures(alloc: Global, message: &Bytes, recipients: &[Address]) -> Result<Vec<Failure>, Memory>
    ensures { IfOk result (λ failed. failed.items ≡ failures_of message.now recipients.now) }
{
    let mut failed = Vec::with_capacity(alloc, recipients.len())?;
    for r in recipients {
        failed.push(Failure {
            recipient: r.copy(alloc)?,
            reason: message.copy(alloc)?,
        })?;
    }
    Ok(failed)
}

/// The notice, if there is one, and the fact about the recipients of the mail.
fn bounced(
    alloc: Global,
    notice: Option<Mail>,
    pass_through: bool,
    mail: Mail,
) -> Result<Served, Memory>
    ensures { IfOk result (λ served. served ≡ bounced_of pass_through mail notice) }
{
    let recipients = mail.recipients.copy(alloc)?;
    let onward = passed(pass_through, mail);
    match notice {
        Some(notice) => {
            let children = one(alloc, notice)?;
            told(alloc, Fact::Bounce { recipients }, children, onward)
        }
        None => {
            let why = Why::NoReturnPath;
            told(
                alloc,
                Fact::Dropped { why, recipients },
                Items::new(alloc),
                onward,
            )
        }
    }
}

/// One fact and these mails.
fn told(alloc: Global, fact: Fact, children: Items<Mail>, onward: Onward) -> Result<Served, Memory>
    ensures { IfOk result (λ served. served ≡ record { facts = fact ∷ []; children = children; onward = onward }) }
{
    let mut facts = Items::new(alloc);
    facts.push(fact)?;
    Ok(Served {
        facts,
        children,
        onward,
    })
}

/// Sends a notice about the mail's error to the postmaster, whoever the sender is. The mail itself goes on, or ends.
pub fn notify_postmaster(
    alloc: Global,
    plan: &Plan,
    pass_through: bool,
    mail: Mail,
) -> Result<Served, ServeError>
    requires hops { mail.hops + 1 < 2 ^ 32 }
    requires due { mail.due < 253_402_300_800_000 }
    ensures { Gives result (Ok (record { facts = []; children = postmaster_notice plan.now mail ∷ []; onward = passed_of pass_through mail })) }
{
    let notice = postmaster_mail(alloc, plan, &mail)?;
    Ok(Served {
        facts: Items::new(alloc),
        children: one(alloc, notice)?,
        onward: passed(pass_through, mail),
    })
}

/// The list of this mail alone.
fn one(alloc: Global, mail: Mail) -> Result<Items<Mail>, Memory>
    ensures { IfOk result (λ mails. mails ≡ mail ∷ []) }
{
    let mut mails = Items::new(alloc);
    mails.push(mail)?;
    Ok(mails)
}
