//! What an address becomes, and what recipients become.
ghost use Rattle.std.specs.Prelude.{◌≡◌, [], IfOk, OnOk};
ghost use Rattle.mj_address.specs.Same.{distinct, with_addresses};
ghost use Rattle.mj_container.specs.Expansion.{Gives, expand, expansion, rewritten};
ghost use Rattle.mj_rewrite.specs.Found.{Leaves, with_rewritten};

use crate::expand::{copied, expand};
use mj_address::{Address, Recipients};
use mj_container::{MAX_ROUNDS, RewriteFault};
use mj_fields::{Items, Memory};
use mj_mail::MAX_RECIPIENTS;
use mj_plan::Plan;
use std::alloc::Global;

/// What the address becomes by the mappings of the plan (RFC 5321, 3.9.1): the targets of the first one that fits it, each
/// looked up again but for the address itself, and the address where none fits; of results that are the same the first.
/// The first fault on the way ends it: `ErrorMapping` at a mapping that says so, `TooDeep` at a mapping behind
/// [`MAX_ROUNDS`] others, `TooMany` at the result behind [`MAX_RESULTS`](mj_container::MAX_RESULTS) others, equal ones
/// counted.
pub fn resolve(
    alloc: Global,
    plan: &Plan,
    address: &Address,
) -> Result<Items<Address>, RewriteFault>
    ensures { Gives result (expansion plan.now.mappings address.now) }
{
    let all = expanded(alloc, plan, MAX_ROUNDS, address)?;
    Ok(distinct(alloc, all)?)
}

/// All results, in order, where so many mappings may follow each other.
fn expanded(
    alloc: Global,
    plan: &Plan,
    rounds: usize,
    address: &Address,
) -> Result<Items<Address>, RewriteFault>
    ensures { Gives result (expand plan.now.mappings rounds address.now []) }
{
    let mut found = Items::new(alloc);
    expand(alloc, plan, rounds, copied(alloc, address)?, &mut found)?;
    Ok(found)
}

/// Of addresses that are the same the first.
fn distinct(alloc: Global, addresses: Items<Address>) -> Result<Items<Address>, Memory>
    ensures { IfOk result (λ kept. kept ≡ distinct addresses) }
{
    if addresses.len() < 2 {
        return Ok(addresses);
    }
    let recipients = Recipients::from_addresses(alloc, addresses.into_vec())?;
    Ok(Items::from_vec(recipients.into_vec(alloc)?))
}

/// What the recipients become: each in turn what [`resolve`] gives, and of those that are the same the first. The first
/// fault on the way ends it: at a recipient that of `resolve`, or else `TooMany` where there are more than
/// [`MAX_RECIPIENTS`] with what it becomes.
pub fn rewrite(
    alloc: Global,
    plan: &Plan,
    recipients: &Recipients,
) -> Result<Recipients, RewriteFault>
    ensures { Gives result (rewritten plan.now.mappings recipients.now) }
{
    let mut found = Recipients::new(alloc);
    for recipient in recipients.as_slice() {
        rewrite_one(alloc, plan, recipient, &mut found)?;
    }
    Ok(found)
}

/// Adds what one recipient becomes.
fn rewrite_one(
    alloc: Global,
    plan: &Plan,
    recipient: &Address,
    found: &mut Recipients,
) -> Result<(), RewriteFault>
    ensures { Leaves result found.new (with_rewritten plan.now.mappings recipient.now found.old) }
{
    let to = resolve(alloc, plan, recipient)?;
    add_all(found, to)?;
    if found.len() > MAX_RECIPIENTS {
        return Err(RewriteFault::TooMany);
    }
    Ok(())
}

/// Adds the addresses, but for those that are the same as one there.
fn add_all(found: &mut Recipients, addresses: Items<Address>) -> Result<(), Memory>
    ensures { OnOk result (found.new ≡ with_addresses found.old addresses) }
{
    found.add_all(addresses.into_vec())?;
    Ok(())
}
