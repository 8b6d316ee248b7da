//! The recipients that are tried again.
ghost use Rattle.std.specs.Prelude.{◌≡◌, ◌+◌, ◌<◌, ◌≤◌, IfOk, IfSome, OnOk};
ghost use Rattle.mj_mail.specs.Outcome.{both};
ghost use Rattle.mj_mail.specs.declared.fact.Fact.TheVariants.{Retry};
ghost use Rattle.mj_mail.specs.declared.mail.Stage.TheVariants.{Remote};
ghost use Rattle.mj_container.specs.Settling.{recipients_of, tried_again, tried_again_after};
ghost use Rattle.mj_remote.specs.Attempts.{settled_attempt};
ghost use Rattle.mj_remote.specs.Fates.{fated};
ghost use Rattle.mj_remote.specs.declared.fate.Fate.TheVariants.{TriedAgain};

use crate::answers::chosen;
use crate::attempt::Attempt;
use crate::fate::Fate;
use mj_address::Recipients;
use mj_fields::Memory;
use mj_mail::{Fact, Mail, Outcome, Reply, Stage};
use std::alloc::Global;

/// Puts the mail off for the recipients that are tried again, if there are any: until the attempt's delay after the moment at
/// which the mail was due.
pub fn put_retry(
    alloc: Global,
    mail: &Mail,
    attempt: &Attempt<'_>,
    replies: &[Reply],
    out: &mut Outcome,
) -> Result<(), Memory>
    requires number { attempt.now.number ≤ 101 }
    requires due { mail.now.due < 253_402_300_800_000 }
    requires delay { IfSome attempt.now.delay (λ delay. delay ≤ 604_800_000) }
    ensures { OnOk result (out.new ≡ both out.old (tried_again mail.now (settled_attempt attempt.now) attempt.now.delay
        (recipients_of (fated TriedAgain attempt.now.delay mail.now.recipients replies.now)))) }
{
    let Some(delay) = attempt.delay else {
        return Ok(());
    };
    let recipients = chosen(
        alloc,
        Fate::TriedAgain,
        attempt.delay,
        &mail.recipients,
        replies,
    )?;
    put_off(alloc, mail, attempt, delay, recipients, out)
}

/// Puts the mail off by this delay for these recipients, if there are any.
fn put_off(
    alloc: Global,
    mail: &Mail,
    attempt: &Attempt<'_>,
    delay: u64,
    recipients: Recipients,
    out: &mut Outcome,
) -> Result<(), Memory>
    requires number { attempt.now.number ≤ 101 }
    requires due { mail.now.due < 253_402_300_800_000 }
    requires delay { delay ≤ 604_800_000 }
    ensures { OnOk result (out.new ≡ both out.old (tried_again_after mail.now (settled_attempt attempt.now) delay recipients)) }
{
    if recipients.is_empty() {
        return Ok(());
    }
    let due = mail.due + delay;
    out.facts.push(retry(alloc, attempt, &recipients, due)?)?;
    out.children
        .push(child(alloc, mail, attempt, recipients, due)?)
}

/// That the mail is tried again for these recipients at that moment.
fn retry(
    alloc: Global,
    attempt: &Attempt<'_>,
    recipients: &Recipients,
    due: u64,
) -> Result<Fact, Memory>
    requires { attempt.now.number ≤ 101 }
    ensures { IfOk result (λ fact. fact ≡ Retry attempt.now.host.now recipients.now (attempt.now.number + 1) due) }
{
    let host = attempt.host.copy(alloc)?;
    let recipients = recipients.copy(alloc)?;
    Ok(Fact::Retry {
        host,
        recipients,
        attempt: attempt.number + 1,
        due,
    })
}

/// The mail for these recipients, at the next attempt, which is due at that moment.
fn child(
    alloc: Global,
    mail: &Mail,
    attempt: &Attempt<'_>,
    recipients: Recipients,
    due: u64,
) -> Result<Mail, Memory>
    requires { attempt.now.number ≤ 101 }
    ensures { IfOk result (λ child. child ≡ record mail.now {
      recipients = recipients;
      stage = Remote attempt.now.delivery.now attempt.now.host.now (attempt.now.number + 1);
      due = due;
    }) }
{
    let mut child = mail.restrict(alloc, recipients)?;
    child.stage = next_stage(alloc, attempt)?;
    child.due = due;
    Ok(child)
}

/// Where a mail waits for the next attempt.
fn next_stage(alloc: Global, attempt: &Attempt<'_>) -> Result<Stage, Memory>
    requires { attempt.now.number ≤ 101 }
    ensures { IfOk result (λ stage. stage ≡ Remote attempt.now.delivery.now attempt.now.host.now (attempt.now.number + 1)) }
{
    let delivery = attempt.delivery.copy(alloc)?;
    let host = attempt.host.copy(alloc)?;
    Ok(Stage::Remote {
        delivery,
        host,
        attempt: attempt.number + 1,
    })
}
