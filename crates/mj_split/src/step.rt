//! One step of a processor: the mail is split by the matcher, the part that is taken is served, and the rest passes by.
ghost use Rattle.std.specs.Prelude.{◌≡◌, true, length, IfOk};
ghost use Rattle.std.specs.List.{list_any};
ghost use Rattle.mj_address.specs.Masks.{left, taken};
ghost use Rattle.mj_mail.specs.Outcome.{both};
ghost use Rattle.mj_container.specs.Running.{parted, served as served_of, split as split_of};
ghost use Rattle.mj_container.specs.Sound.{IsFit};
ghost use Rattle.mj_container.specs.Verdict.{verdict};
ghost use Rattle.mj_mail.specs.declared.fact.Outcome.{Outcome as OutcomeValue};
ghost use Rattle.mj_mail.specs.declared.mail.Mail.{Mail as MailValue};
ghost use Rattle.mj_mail.specs.Mail.{restrict};
ghost use Rattle.mj_plan.specs.Sound.{IsSound, is_mailet, is_matcher, names_of};
ghost use Rattle.mj_split.specs.Parts.{AreFit, for_any, goes_on};

use crate::judge::{Judged, judge};
use crate::leave::leave_failed;
use crate::settle::serve_part;
use crate::step_at::StepAt;
use mj_address::Recipients;
use mj_fields::Memory;
use mj_mail::{Mail, Outcome};
use std::alloc::Global;
use std::mem;

/// What is left of a mail after a step: what goes on of the part that was served, and the part that passes by.
#[derive(Drop)]
pub struct Parts {
    pub served: Option<Mail>,
    pub rest: Option<Mail>,
}

/// Takes a mail through a step. What becomes of it for good goes to the outcome.
pub fn take_step(
    alloc: Global,
    at: StepAt<'_>,
    mail: Mail,
    out: &mut Outcome,
) -> Result<Parts, Memory>
    requires plan { IsSound at.plan.now }
    requires matcher { is_matcher at.step.now.matcher ≡ true }
    requires mailet { is_mailet (names_of at.plan.now.processors) at.step.now.mailet ≡ true }
    requires fit { IsFit mail }
    ensures outcome { IfOk result (λ parts. (on : MailValue → OutcomeValue) →
        both out.new (both (goes_on on parts.served) (goes_on on parts.rest))
        ≡ both out.old (split_of at.entry.plan.now at.entry.name.now at.entry.number at.entry.step.now on mail (verdict at.entry.plan.now at.entry.step.now mail))) }
    ensures fit { IfOk result (λ parts. AreFit parts) }
{
    match judge(alloc, at.plan, at.step, &mail)? {
        Judged::Leaves { state, reason } => {
            leave_failed(alloc, at, reason.as_slice(), state, mail, out)?;
            Ok(Parts {
                served: None,
                rest: None,
            })
        }
        Judged::Takes(mask) => split(alloc, at, mail, mask.as_slice(), out),
    }
}

/// Serves those whom the mask takes, if there are any, and lets the others pass by.
fn split(
    alloc: Global,
    at: StepAt<'_>,
    mail: Mail,
    mask: &[bool],
    out: &mut Outcome,
) -> Result<Parts, Memory>
    requires mask { length mask.now ≡ length mail.recipients }
    requires plan { IsSound at.plan.now }
    requires mailet { is_mailet (names_of at.plan.now.processors) at.step.now.mailet ≡ true }
    requires fit { IsFit mail }
    ensures outcome { IfOk result (λ parts. (on : MailValue → OutcomeValue) →
        both out.new (both (goes_on on parts.served) (goes_on on parts.rest))
        ≡ both out.old (parted (served_of at.entry.plan.now at.entry.name.now at.entry.number at.entry.step.now on) on mail (taken mask.now mail.recipients) (left mask.now mail.recipients))) }
    ensures fit { IfOk result (λ parts. AreFit parts) }
{
    if !takes_some(mask) {
        return Ok(Parts {
            served: None,
            rest: Some(mail),
        });
    }
    let (mail, rest) = cut(alloc, mail, mask)?;
    let served = serve_part(alloc, at, mail, out)?;
    Ok(Parts { served, rest })
}

/// Whether some recipient is taken.
fn takes_some(mask: &[bool]) -> bool
    ensures { result ≡ list_any (λ taken. taken) mask.now }
{
    mask.iter().any(|taken| *taken)
}

/// The mail for those whom the mask takes, and for the others, if there are any. Only where there are both is it copied.
fn cut(alloc: Global, mail: Mail, mask: &[bool]) -> Result<(Mail, Option<Mail>), Memory>
    requires { length mask.now ≡ length mail.recipients }
    ensures taken { IfOk result (λ parts. parts.0 ≡ restrict mail (taken mask.now mail.recipients)) }
    ensures left { IfOk result (λ parts. parts.1 ≡ for_any mail (left mask.now mail.recipients)) }
{
    let mut mail = mail;
    let recipients = mem::replace(&mut mail.recipients, Recipients::new(alloc));
    let (taken, left) = recipients.split(alloc, mask)?;
    let rest = for_any(alloc, &mail, left)?;
    mail.recipients = taken;
    Ok((mail, rest))
}

/// The mail for these recipients, if there are any.
fn for_any(alloc: Global, mail: &Mail, recipients: Recipients) -> Result<Option<Mail>, Memory>
    ensures { IfOk result (λ rest. rest ≡ for_any mail.now recipients) }
{
    if recipients.is_empty() {
        return Ok(None);
    }
    Ok(Some(mail.restrict(alloc, recipients)?))
}
