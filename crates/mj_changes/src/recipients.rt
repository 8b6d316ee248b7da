//! Mailets that change the recipients of a mail, or send a copy to others.
ghost use Rattle.std.specs.Prelude.{◌≡◌, ◌<◌, ◌+◌, ◌^◌, ◌∷◌, [], map, Ok, IfOk};
ghost use Rattle.mj_address.specs.Same.{distinct, with_lower_local};
ghost use Rattle.mj_container.specs.Changes.{postmaster_alias as postmaster_alias_of};
ghost use Rattle.mj_container.specs.declared.service.Onward.TheVariants.{GoOn};
ghost use Rattle.mj_container.specs.Expansion.{fault_text as fault_text_of, rewritten};
ghost use Rattle.mj_container.specs.Serving.{Gives, forwarded as forwarded_of, goes as goes_of, passed as passed_of, with_rewritten};
ghost use Rattle.mj_mail.specs.Mail.{restrict};

use crate::answers::{fails, goes, passed};
use mj_address::{Address, Recipients};
use mj_container::{Onward, RewriteFault, ServeError, Served};
use mj_fields::{Bytes, Items, Memory};
use mj_mail::{Mail, Stage};
use mj_plan::Plan;
use mj_rewrite::rewrite;
use std::alloc::Global;

/// Spells each recipient's local part in ASCII lower case, and the mail goes on for them; of recipients that are the same then for the
/// first. The one error is want of memory.
pub fn lower_case(alloc: Global, mail: Mail) -> Result<Served, ServeError>
    ensures { Gives result (goes_of (GoOn (restrict mail (distinct (map with_lower_local mail.recipients))))) }
{
    let mut mail = mail;
    mail.recipients = lowered(alloc, mail.recipients.as_slice())?;
    goes(alloc, Onward::GoOn(mail))
}

fn lowered(alloc: Global, recipients: &[Address]) -> Result<Recipients, Memory>
    ensures { IfOk result (λ lowered. lowered ≡ distinct (map with_lower_local recipients.now)) }
{
    let mut addresses = Vec::with_capacity(alloc, recipients.len())?;
    for r in recipients {
        addresses.push(r.with_lower_local(alloc)?)?;
    }
    Ok(Recipients::from_addresses(alloc, addresses)?)
}

/// Puts the postmaster of the plan in place of each `postmaster` of a local host, without regard to ASCII case (RFC 5321, 4.5.1), and
/// the mail goes on; of recipients that are the same then for the first. The one error is want of memory.
pub fn postmaster_alias(alloc: Global, plan: &Plan, mail: Mail) -> Result<Served, ServeError>
    ensures { Gives result (goes_of (GoOn (restrict mail (distinct (map (postmaster_alias_of plan.now) mail.recipients))))) }
{
    let mut mail = mail;
    mail.recipients = aliased(alloc, plan, mail.recipients.as_slice())?;
    goes(alloc, Onward::GoOn(mail))
}

fn aliased(alloc: Global, plan: &Plan, recipients: &[Address]) -> Result<Recipients, Memory>
    ensures { IfOk result (λ aliased. aliased ≡ distinct (map (postmaster_alias_of plan.now) recipients.now)) }
{
    let mut addresses = Vec::with_capacity(alloc, recipients.len())?;
    for r in recipients {
        addresses.push(alias(plan, r).copy(alloc)?)?;
    }
    Ok(Recipients::from_addresses(alloc, addresses)?)
}

fn alias<'a>(plan: &'a Plan, r: &'a Address) -> &'a Address
    ensures { result.now ≡ postmaster_alias_of plan.now r.now }
{
    let is_postmaster = r.local().eq_ignore_ascii_case(b"postmaster");
    if is_postmaster && plan.local_hosts.contains(r.domain()) {
        &plan.postmaster
    } else {
        r
    }
}

/// Puts what the mappings of the plan make of each recipient in its place (RFC 5321, 3.9.1), as [`rewrite`] does, and the mail goes on.
/// It fails where `rewrite` does, with `RewriteTooDeep`, `RewriteTooMany`, or `ErrorMapping` and the text of the mapping, and the mail
/// stays as it was. The other error is want of memory.
pub fn rewritten(alloc: Global, plan: &Plan, mail: Mail) -> Result<Served, ServeError>
    ensures { Gives result (with_rewritten mail (rewritten plan.now.mappings mail.recipients)) }
{
    let mut mail = mail;
    match rewrite(alloc, plan, &mail.recipients) {
        Ok(recipients) => {
            mail.recipients = recipients;
            goes(alloc, Onward::GoOn(mail))
        }
        Err(RewriteFault::Memory) => Err(ServeError::Memory),
        Err(fault) => {
            let text = fault_text(alloc, &fault)?;
            fails(alloc, text.as_slice(), mail)
        }
    }
}

/// The text of a failure.
fn fault_text(alloc: Global, fault: &RewriteFault) -> Result<Bytes, Memory>
    ensures { IfOk result (λ text. text ≡ fault_text_of fault.now) }
{
    match fault {
        RewriteFault::ErrorMapping { text } => {
            let mut said = Bytes::from_slice(alloc, b"ErrorMapping ")?;
            said.extend(text.as_slice())?;
            Ok(said)
        }
        RewriteFault::TooDeep => Bytes::from_slice(alloc, b"RewriteTooDeep"),
        RewriteFault::TooMany => Bytes::from_slice(alloc, b"RewriteTooMany"),
        RewriteFault::Memory => Ok(Bytes::new(alloc)),
    }
}

/// Sends a copy of the mail to these addresses, of those that are the same to the first. It begins in the processor `root`, with one
/// hop more and with no text of an earlier failure. The mail itself goes on with `pass_through`, and else ends. The one error is want
/// of memory.
pub fn forward(
    alloc: Global,
    to: &[Address],
    pass_through: bool,
    mail: Mail,
) -> Result<Served, ServeError>
    requires { mail.hops + 1 < 2 ^ 32 }
    ensures { Gives result (Ok (record { facts = []; children = forwarded_of (distinct to.now) mail ∷ []; onward = passed_of pass_through mail })) }
{
    let mut children = Items::new(alloc);
    children.push(forwarded(alloc, to, &mail)?)?;
    Ok(Served {
        facts: Items::new(alloc),
        children,
        onward: passed(pass_through, mail),
    })
}

/// The copy for others: with one hop more, and nothing of earlier failures.
fn forwarded(alloc: Global, to: &[Address], mail: &Mail) -> Result<Mail, Memory>
    requires { mail.now.hops + 1 < 2 ^ 32 }
    ensures { IfOk result (λ copy. copy ≡ forwarded_of (distinct to.now) mail.now) }
{
    let recipients = different(alloc, to)?;
    let mut copy = mail.restrict(alloc, recipients)?;
    copy.error = Bytes::new(alloc);
    copy.stage = Stage::Process(Bytes::from_slice(alloc, b"root")?);
    copy.hops += 1;
    Ok(copy)
}

/// Of addresses that are the same the first.
fn different(alloc: Global, addresses: &[Address]) -> Result<Recipients, Memory>
    ensures { IfOk result (λ recipients. recipients ≡ distinct addresses.now) }
{
    let mut copies = Vec::with_capacity(alloc, addresses.len())?;
    for address in addresses {
        copies.push(address.copy(alloc)?)?;
    }
    Ok(Recipients::from_addresses(alloc, copies)?)
}
