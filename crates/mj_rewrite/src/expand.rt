//! An address, followed from mapping to mapping.
ghost use Rattle.std.specs.Prelude.{◌≡◌, Some, IfOk};
ghost use Rattle.mj_container.specs.Expansion.{added, expand, mapped, target, targets};
ghost use Rattle.mj_rewrite.specs.Found.{Leaves};

use mj_address::{Address, Domain};
use mj_container::{MAX_RESULTS, RewriteFault};
use mj_fields::{Items, Memory};
use mj_plan::{Mapping, Plan};
use std::alloc::Global;

/// Adds what the address becomes, where so many mappings may still follow each other, behind what was found before it.
#[cycle(expand)]
pub(crate) fn expand(
    alloc: Global,
    plan: &Plan,
    rounds: usize,
    address: Address,
    found: &mut Items<Address>,
) -> Result<(), RewriteFault>
    ensures { Leaves result found.new (expand plan.now.mappings rounds address found.old) }
{
    let Some(mapping) = plan.mappings.of(&address) else {
        return add(address, found);
    };
    if rounds == 0 {
        return Err(RewriteFault::TooDeep);
    }
    follow(alloc, plan, rounds - 1, &address, mapping, found)
}

/// Adds what the mapping makes of the address.
#[cycle(expand)]
fn follow(
    alloc: Global,
    plan: &Plan,
    rounds: usize,
    address: &Address,
    mapping: &Mapping,
    found: &mut Items<Address>,
) -> Result<(), RewriteFault>
    ensures { Leaves result found.new (mapped (expand plan.now.mappings rounds) address.now (Some mapping.now) found.old) }
{
    match mapping {
        Mapping::Addresses { to, .. } => {
            expand_targets(alloc, plan, rounds, address, to.as_slice(), found)
        }
        Mapping::Error { text, .. } => Err(RewriteFault::ErrorMapping {
            text: text.copy(alloc)?,
        }),
        Mapping::Host { to, .. } => {
            let to = moved(alloc, address, to)?;
            expand_target(alloc, plan, rounds, address, to, found)
        }
    }
}

/// Adds what the targets of a mapping of the address become, one after another.
#[cycle(expand)]
fn expand_targets(
    alloc: Global,
    plan: &Plan,
    rounds: usize,
    address: &Address,
    to: &[Address],
    found: &mut Items<Address>,
) -> Result<(), RewriteFault>
    ensures { Leaves result found.new (targets (expand plan.now.mappings rounds) address.now to.now found.old) }
{
    for target in to {
        let target = copied(alloc, target)?;
        expand_target(alloc, plan, rounds, address, target, found)?;
    }
    Ok(())
}

/// Adds what one target becomes: the address itself stays.
#[cycle(expand)]
fn expand_target(
    alloc: Global,
    plan: &Plan,
    rounds: usize,
    address: &Address,
    to: Address,
    found: &mut Items<Address>,
) -> Result<(), RewriteFault>
    ensures { Leaves result found.new (target (expand plan.now.mappings rounds) address.now to found.old) }
{
    if address.same(&to) {
        return add(to, found);
    }
    expand(alloc, plan, rounds, to, found)
}

/// Adds an address, unless [`MAX_RESULTS`] are there.
fn add(address: Address, found: &mut Items<Address>) -> Result<(), RewriteFault>
    ensures { Leaves result found.new (added address found.old) }
{
    if found.len() >= MAX_RESULTS {
        return Err(RewriteFault::TooMany);
    }
    found.push(address)?;
    Ok(())
}

/// An equal address.
pub(crate) fn copied(alloc: Global, address: &Address) -> Result<Address, Memory>
    ensures { IfOk result (λ copy. copy ≡ address.now) }
{
    Ok(address.copy(alloc)?)
}

/// The same local part at another domain.
fn moved(alloc: Global, address: &Address, domain: &Domain) -> Result<Address, Memory>
    ensures { IfOk result (λ moved. moved ≡ (address.now.0, domain.now)) }
{
    Ok(address.at(alloc, domain)?)
}
