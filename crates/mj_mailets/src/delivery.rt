//! The mailet that sends a mail to hosts.
ghost use Rattle.std.specs.Prelude.{◌≡◌, ℕ, ◌<◌, ◌+◌, ◌^◌, List, [], map, Ok, None, Some, IfOk};
ghost use Rattle.std.specs.List.{AllByRecursion};
ghost use Rattle.mj_address.specs.Same.{AreRecipients};
ghost use Rattle.mj_container.specs.declared.service.Onward.TheVariants.{End};
ghost use Rattle.mj_container.specs.Serving.{Gives, by_domain as by_domain_of, deliveries as deliveries_of, sent_out as sent_out_of};

use mj_address::{Address, Domain, Recipients};
use mj_container::{Onward, ServeError, Served};
use mj_fields::{Bytes, Items, Memory};
use mj_groups::grouped;
use mj_mail::{Mail, Stage};
use std::alloc::Global;
use std::mem;

/// Sends the mail to a host by the delivery of this name, with one hop more, where its first attempt is next: to the gateway for all
/// recipients, or without one to each domain for the recipients at it, in the order of the first at each (RFC 5321, 5.1). A domain
/// is spelled as the first of them spells it. There the mail ends. The one error is want of memory.
pub fn deliver(
    alloc: Global,
    outgoing: &Bytes,
    gateway: &Option<Domain>,
    mail: Mail,
) -> Result<Served, ServeError>
    requires { mail.hops + 1 < 2 ^ 32 }
    ensures { Gives result (Ok (record { facts = []; children = deliveries_of outgoing.now gateway.now mail; onward = End })) }
{
    let children = deliveries(alloc, outgoing, gateway, mail)?;
    Ok(Served {
        facts: Items::new(alloc),
        children,
        onward: Onward::End,
    })
}

/// The mail for each host.
fn deliveries(
    alloc: Global,
    outgoing: &Bytes,
    gateway: &Option<Domain>,
    mail: Mail,
) -> Result<Items<Mail>, Memory>
    requires { mail.hops + 1 < 2 ^ 32 }
    ensures { IfOk result (λ mails. mails ≡ deliveries_of outgoing.now gateway.now mail) }
{
    match gateway {
        Some(host) => sent_to_gateway(alloc, outgoing, host, mail),
        None => sent_by_domain(alloc, outgoing, mail),
    }
}

/// The mail for all recipients, on its way to the gateway.
fn sent_to_gateway(
    alloc: Global,
    outgoing: &Bytes,
    gateway: &Domain,
    mail: Mail,
) -> Result<Items<Mail>, Memory>
    requires { mail.hops + 1 < 2 ^ 32 }
    ensures { IfOk result (λ mails. mails ≡ deliveries_of outgoing.now (Some gateway.now) mail) }
{
    let mut mails = Items::new(alloc);
    mails.push(sent_out(alloc, outgoing, gateway.copy(alloc)?, mail)?)?;
    Ok(mails)
}

/// The mail on its way to a host.
fn sent_out(alloc: Global, outgoing: &Bytes, host: Domain, mail: Mail) -> Result<Mail, Memory>
    requires { mail.hops + 1 < 2 ^ 32 }
    ensures { IfOk result (λ sent. sent ≡ sent_out_of outgoing.now host mail.recipients mail) }
{
    let mut sent = mail;
    sent.stage = Stage::Remote {
        delivery: outgoing.copy(alloc)?,
        host,
        attempt: 1,
    };
    sent.hops += 1;
    Ok(sent)
}

/// The mail for the recipients at each domain.
fn sent_by_domain(alloc: Global, outgoing: &Bytes, mail: Mail) -> Result<Items<Mail>, Memory>
    requires { mail.hops + 1 < 2 ^ 32 }
    ensures { IfOk result (λ mails. mails ≡ deliveries_of outgoing.now None mail) }
{
    let mut mail = mail;
    let recipients = mem::replace(&mut mail.recipients, Recipients::new(alloc));
    let groups = by_domain(alloc, recipients)?;
    sent_each(alloc, outgoing, groups, mail)
}

/// The recipients at each domain, in the order of the first. No address is copied.
fn by_domain(alloc: Global, recipients: Recipients) -> Result<Vec<(Domain, Recipients)>, Memory>
    ensures { IfOk result (λ groups. groups.items ≡ by_domain_of recipients) }
{
    let _form = recipients.len();
    let pairs = with_domains(alloc, recipients.into_vec(alloc)?)?;
    recipient_lists(alloc, grouped(alloc, pairs)?)
}

/// Each address with its domain in front.
fn with_domains(alloc: Global, addresses: Vec<Address>) -> Result<Vec<(Domain, Address)>, Memory>
    ensures { IfOk result (λ pairs. pairs.items ≡ map (λ r. (r.1, r)) addresses.items) }
{
    let mut pairs = Vec::with_capacity(alloc, addresses.len())?;
    for address in addresses {
        pairs.push((address.domain().copy(alloc)?, address))?;
    }
    Ok(pairs)
}

/// The addresses of each group as recipients.
fn recipient_lists(
    alloc: Global,
    groups: Vec<(Domain, Vec<Address>)>,
) -> Result<Vec<(Domain, Recipients)>, Memory>
    requires { AllByRecursion (λ (group : List ℕ × List (List ℕ × List ℕ)). AreRecipients group.1) (map (λ group. (group.0, group.1.items)) groups.items) }
    ensures { IfOk result (λ lists. lists.items ≡ map (λ group. (group.0, group.1.items)) groups.items) }
{
    let mut lists = Vec::with_capacity(alloc, groups.len())?;
    for (domain, addresses) in groups {
        lists.push((domain, Recipients::of_different(addresses)))?;
    }
    Ok(lists)
}

/// The mail for each of these lists of recipients. The last takes the mail itself, and the others a copy.
fn sent_each(
    alloc: Global,
    outgoing: &Bytes,
    groups: Vec<(Domain, Recipients)>,
    mail: Mail,
) -> Result<Items<Mail>, Memory>
    requires { mail.hops + 1 < 2 ^ 32 }
    ensures { IfOk result (λ mails. mails ≡ map (λ group. sent_out_of outgoing.now group.0 group.1 mail) groups.items) }
{
    let (mut groups, mut mail) = (groups, mail);
    let Some((host, recipients)) = groups.pop() else {
        return Ok(Items::new(alloc));
    };
    let mut mails = sent_copies(alloc, outgoing, groups, &mail)?;
    mail.recipients = recipients;
    mails.push(sent_out(alloc, outgoing, host, mail)?)?;
    Ok(Items::from_vec(mails))
}

/// A copy of the mail for each of these lists of recipients.
fn sent_copies(
    alloc: Global,
    outgoing: &Bytes,
    groups: Vec<(Domain, Recipients)>,
    mail: &Mail,
) -> Result<Vec<Mail>, Memory>
    requires { mail.now.hops + 1 < 2 ^ 32 }
    ensures { IfOk result (λ mails. mails.items ≡ map (λ group. sent_out_of outgoing.now group.0 group.1 mail.now) groups.items) }
{
    let mut mails = Vec::with_capacity(alloc, groups.len().saturating_add(1))?;
    for (host, recipients) in groups {
        let copy = mail.restrict(alloc, recipients)?;
        mails.push(sent_out(alloc, outgoing, host, copy)?)?;
    }
    Ok(mails)
}
