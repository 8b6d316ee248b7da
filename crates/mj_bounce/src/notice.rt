//! Notices about a mail.
ghost use Rattle.std.specs.Prelude.{◌≡◌, ◌+◌, ◌<◌, ◌≤◌, ◌^◌, ◌↔◌, [], ◌∷◌, length, true, None, IfOk};
ghost use Rattle.mj_container.specs.Notices.{bounce_of, notice as notice_of, postmaster_notice};
ghost use Rattle.mj_head.specs.Fields.{is_field_value};

use crate::notice_body::{troubled, undelivered};
use crate::notice_head::notice_head;
use mj_address::{Address, Recipients};
use mj_fields::{Bytes, Memory};
use mj_mail::{Attributes, Body, Failure, Mail, Stage};
use mj_plan::Plan;
use std::alloc::Global;

/// The notice to the sender of a mail: that it couldn't be delivered to these recipients, in order, and why to
/// each (RFC 5321, 6.1). It has a null sender, keeps the mail's name and moment, goes from the postmaster to the
/// processor `root` with one hop more, and repeats the head of the mail. `None` exactly where the mail's sender
/// is null, since no notice answers a notice (RFC 5321, 4.5.5). The one error is want of memory.
pub fn bounce_mail(
    alloc: Global,
    plan: &Plan,
    mail: &Mail,
    failed: &[Failure],
) -> Result<Option<Mail>, Memory>
    requires hops { mail.now.hops + 1 < 2 ^ 32 }
    requires due { mail.now.due < 253_402_300_800_000 }
    ensures notice { IfOk result (λ notice. notice ≡ bounce_of plan.now mail.now failed.now) }
    ensures none { IfOk result (λ notice. (notice ≡ None) ↔ (mail.now.sender ≡ None)) }
{
    let Some(sender) = &mail.sender else {
        return Ok(None);
    };
    let body = undelivered(alloc, plan, mail, failed)?;
    let subject = b"Undelivered mail returned to sender";
    let notice = notice(alloc, plan, mail, sender, subject, body)?;
    Ok(Some(notice))
}

/// The notice to the plan's postmaster about the error of a mail, whatever its sender is. It has a null sender,
/// keeps the mail's name and moment, goes to the processor `root` with one hop more, and repeats the head of the
/// mail. The one error is want of memory.
pub fn postmaster_mail(alloc: Global, plan: &Plan, mail: &Mail) -> Result<Mail, Memory>
    requires hops { mail.now.hops + 1 < 2 ^ 32 }
    requires due { mail.now.due < 253_402_300_800_000 }
    ensures { IfOk result (λ notice. notice ≡ postmaster_notice plan.now mail.now) }
{
    let body = troubled(alloc, plan, mail)?;
    let subject = b"Notice to the postmaster";
    notice(alloc, plan, mail, &plan.postmaster, subject, body)
}

/// The notice about a mail to this address, with this subject and body (RFC 5322, 3.6).
fn notice(
    alloc: Global,
    plan: &Plan,
    mail: &Mail,
    to: &Address,
    subject: &[u8],
    body: Bytes,
) -> Result<Mail, Memory>
    requires hops { mail.now.hops + 1 < 2 ^ 32 }
    requires due { mail.now.due < 253_402_300_800_000 }
    requires line { is_field_value subject.now ≡ true }
    requires short { length subject.now ≤ 100 }
    ensures { IfOk result (λ notice. notice ≡ notice_of plan.now mail.now to.now subject.now body) }
{
    let head = notice_head(alloc, plan, to, subject, mail.due)?;
    let name = mail.name.copy(alloc)?;
    let recipients = Recipients::one(alloc, to.copy(alloc)?)?;
    let root = Bytes::from_slice(alloc, b"root")?;
    Ok(Mail {
        name,
        sender: None,
        recipients,
        attributes: Attributes::new(alloc),
        stage: Stage::Process(root),
        error: Bytes::new(alloc),
        head,
        body: Body::Made(body),
        hops: mail.hops + 1,
        due: mail.due,
    })
}
