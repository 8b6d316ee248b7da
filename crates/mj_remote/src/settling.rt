//! What becomes of a mail by the replies to its attempt.
ghost use Rattle.std.specs.Prelude.{◌≡◌, ◌+◌, ◌<◌, ◌≤◌, ◌^◌, length, true, IfOk, IfSome, OnOk};
ghost use Rattle.std.specs.Option.{option_copied};
ghost use Rattle.mj_mail.specs.Outcome.{both};
ghost use Rattle.mj_container.specs.Settling.{answers, settle as settle_of};
ghost use Rattle.mj_container.specs.Sound.{is_sound};
ghost use Rattle.mj_remote.specs.Attempts.{settled_attempt};
ghost use Rattle.mj_remote.specs.Fates.{fated};
ghost use Rattle.mj_remote.specs.Parts.{given_up_to, settled_at};
ghost use Rattle.mj_remote.specs.declared.fate.Fate.TheVariants.{GivenUp};

use crate::attempt::Attempt;
use crate::given_up::{put_discarded, put_notice};
use crate::retry::put_retry;
use crate::sent::put_sent;
use crate::sent_back::put_sent_back;
use mj_fields::{Items, Memory};
use mj_mail::{Mail, Outcome, Reply, Stage};
use mj_plan::{GHOST, Plan};
use std::alloc::Global;

/// What becomes of a mail after an attempt to send it to its host, by the replies for its recipients, one for each, in order
/// (RFC 5321, 4.2.1).
///
/// A recipient with a reply 2yz is served: the fact `Sent` says so. One with a reply 4yz is tried again, if the schedule of the
/// mail's delivery has a delay left after this attempt: one mail for all such recipients waits for the next attempt, which is
/// due that delay after the moment at which this one was, and the fact `Retry` says so (RFC 5321, 4.5.4). One with a reply 5yz,
/// or with 4yz at the last attempt, is given up. What is given up goes to the processor for bounces that the delivery names:
/// one mail for each different reply, in the order of their first mention, with one hop more and with the reply in the
/// attributes `delivery-error`, `delivery-error-code` and `is-delivery-permanent-error`, of which those are left out that would
/// be one too many; with `ghost` it is dropped. Where no processor is named one notice goes to the sender, and the fact `Bounce`
/// says so (RFC 5321, 6.1); a null sender gets none, and the recipients are dropped (RFC 5321, 4.5.5).
///
/// Facts stand in the order served, given up, tried again, and children likewise. Children have their parent's name. Nothing
/// becomes of a mail in a processor. The one error is want of memory.
pub fn settle(
    alloc: Global,
    plan: &Plan,
    mail: &Mail,
    replies: &Items<Reply>,
) -> Result<Outcome, Memory>
    requires mail { is_sound plan.now mail.now ≡ true }
    requires replies { length replies.now ≡ length mail.now.recipients }
    ensures { IfOk result (λ outcome. outcome ≡ settled_at plan.now mail.now mail.now.stage replies.now) }
{
    match &mail.stage {
        Stage::Process(_) => Ok(Outcome::nothing(alloc)),
        Stage::Remote {
            delivery,
            host,
            attempt,
        } => {
            let attempt = Attempt::new(plan, delivery, host, *attempt);
            settle_attempt(alloc, plan, mail, &attempt, replies.as_slice())
        }
    }
}

/// What becomes of a mail after this attempt.
#[tactic(auto, using(crate::proofs::Outcomes::in_parts))]
fn settle_attempt(
    alloc: Global,
    plan: &Plan,
    mail: &Mail,
    attempt: &Attempt<'_>,
    replies: &[Reply],
) -> Result<Outcome, Memory>
    requires hops { mail.now.hops + 1 < 2 ^ 32 }
    requires due { mail.now.due < 253_402_300_800_000 }
    requires number { attempt.now.number ≤ 101 }
    requires delay { IfSome attempt.now.delay (λ delay. delay ≤ 604_800_000) }
    ensures { IfOk result (λ outcome. outcome ≡ settle_of plan.now mail.now (settled_attempt attempt.now) (answers mail.now.recipients replies.now)) }
{
    let recipients = mail.recipients.as_slice();
    let mut out = Outcome::nothing(alloc);
    put_sent(
        alloc,
        attempt.host,
        attempt.delay,
        recipients,
        replies,
        &mut out.facts,
    )?;
    put_given_up(alloc, plan, mail, attempt, replies, &mut out)?;
    put_retry(alloc, mail, attempt, replies, &mut out)?;
    Ok(out)
}

/// Puts down what becomes of the recipients that are given up.
fn put_given_up(
    alloc: Global,
    plan: &Plan,
    mail: &Mail,
    attempt: &Attempt<'_>,
    replies: &[Reply],
    out: &mut Outcome,
) -> Result<(), Memory>
    requires hops { mail.now.hops + 1 < 2 ^ 32 }
    requires due { mail.now.due < 253_402_300_800_000 }
    ensures { OnOk result (out.new ≡ both out.old (given_up_to plan.now mail.now (option_copied attempt.now.bounces)
        (fated GivenUp attempt.now.delay mail.now.recipients replies.now))) }
{
    match attempt.bounces {
        None => put_notice(alloc, plan, mail, attempt.delay, replies, out),
        Some(state) if state.as_slice() == GHOST => {
            put_discarded(alloc, mail, attempt.delay, replies, out)
        }
        Some(state) => put_sent_back(
            alloc,
            state,
            mail,
            attempt.delay,
            replies,
            &mut out.children,
        ),
    }
}
