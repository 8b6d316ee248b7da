//! Conditions that look at each recipient of a mail: whether they hold for each.
ghost use Rattle.std.specs.Prelude.{◌≡◌, ◌&&◌, map, IfOk};
ghost use Rattle.mj_container.specs.Matching.{is_address_of, is_host_of, is_user_of};

use mj_address::{Address, Domain};
use mj_plan::{Listed, Plan, User};
use std::alloc::{AllocError, Global};

pub(crate) fn recipient_is(
    alloc: Global,
    addresses: &Listed<Address>,
    recipients: &[Address],
) -> Result<Vec<bool>, AllocError>
    ensures { IfOk result (λ truths. truths.items ≡ map (λ r. is_address_of addresses.now r) recipients.now) }
{
    recipients
        .iter()
        .map(|recipient| addresses.contains(recipient))
        .collect(alloc)
}

pub(crate) fn recipient_is_local(
    alloc: Global,
    plan: &Plan,
    recipients: &[Address],
) -> Result<Vec<bool>, AllocError>
    ensures { IfOk result (λ truths. truths.items ≡ map (λ r. is_host_of plan.now.local_hosts r.1 && is_user_of plan.now.local_users r.0) recipients.now) }
{
    recipients
        .iter()
        .map(|recipient| is_local(plan, recipient))
        .collect(alloc)
}

/// Whether the address is one of a local user at a local host.
fn is_local(plan: &Plan, address: &Address) -> bool
    ensures { result ≡ (is_host_of plan.now.local_hosts address.now.1 && is_user_of plan.now.local_users address.now.0) }
{
    plan.local_hosts.contains(address.domain()) && plan.local_users.has_user(address.local())
}

pub(crate) fn host_is(
    alloc: Global,
    hosts: &Listed<Domain>,
    recipients: &[Address],
) -> Result<Vec<bool>, AllocError>
    ensures { IfOk result (λ truths. truths.items ≡ map (λ r. is_host_of hosts.now r.1) recipients.now) }
{
    recipients
        .iter()
        .map(|recipient| hosts.contains(recipient.domain()))
        .collect(alloc)
}

pub(crate) fn user_is(
    alloc: Global,
    users: &Listed<User<'static>>,
    recipients: &[Address],
) -> Result<Vec<bool>, AllocError>
    ensures { IfOk result (λ truths. truths.items ≡ map (λ r. is_user_of users.now r.0) recipients.now) }
{
    recipients
        .iter()
        .map(|recipient| users.has_user(recipient.local()))
        .collect(alloc)
}
