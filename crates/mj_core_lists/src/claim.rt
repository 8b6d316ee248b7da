ghost use Rattle.std.specs.Prelude.{◌≡◌, true, IfOk};
ghost use Rattle.std.specs.Option.{option_copied};
ghost use Rattle.mj_lawful.specs.Machine.{claim_of, is_claimed, with_attempt, without_claim};
ghost use Rattle.mj_lawful.specs.Places.{same_name};

use mj_fields::{Items, Memory};
use mj_mail::Name;
use std::alloc::Global;
use std::marker::Model;

/// A worker has the mail of this name, and may have called its host since.
#[derive(Debug, Drop)]
pub struct Claim {
    pub worker: u32,
    pub name: Name,
    pub attempted: bool,
}

impl Model for Claim {
    ghost use Rattle.mj_lawful.specs.Machine.{Claim as MachineClaim};

    ghost Value = { MachineClaim };

    ghost view = { λ c. record { worker = c.worker; name = c.name; attempted = c.attempted } };
}

impl Claim {
    /// An equal value with room of its own.
    pub fn copy(&self, alloc: Global) -> Result<Claim, Memory>
        ensures { IfOk result (λ claim. claim ≡ self.now) }
    {
        Ok(Claim {
            worker: self.worker,
            name: self.name.copy(alloc)?,
            attempted: self.attempted,
        })
    }

    /// The claim, where its worker has called the host.
    fn attempt(&self, alloc: Global) -> Result<Claim, Memory>
        ensures { IfOk result (λ claim. claim ≡ record self.now { attempted = true }) }
    {
        Ok(Claim {
            worker: self.worker,
            name: self.name.copy(alloc)?,
            attempted: true,
        })
    }
}

pub fn is_same(a: &Name, b: &Name) -> bool
    ensures { result ≡ same_name a.now b.now }
{
    a.number == b.number && a.path.as_slice() == b.path.as_slice()
}

/// The claim of a worker.
pub fn find_claim(claims: &[Claim], worker: u32) -> Option<&Claim>
    ensures { option_copied result ≡ claim_of claims.now worker }
{
    for claim in claims {
        if claim.worker == worker {
            return Some(claim);
        }
    }
    None
}

/// Whether a worker has the mail of this name.
pub fn has_claim(claims: &[Claim], name: &Name) -> bool
    ensures { result ≡ is_claimed claims.now name.now }
{
    for claim in claims {
        if is_same(&claim.name, name) {
            return true;
        }
    }
    false
}

/// The claims without that of the worker.
pub fn claims_without(alloc: Global, claims: &[Claim], worker: u32) -> Result<Items<Claim>, Memory>
    ensures { IfOk result (λ others. others ≡ without_claim claims.now worker) }
{
    let mut others = Items::new(alloc);
    let mut passed = false;
    for claim in claims {
        if passed || claim.worker != worker {
            others.push(claim.copy(alloc)?)?;
        } else {
            passed = true;
        }
    }
    Ok(others)
}

/// The claims, where this worker has called the host.
pub fn claims_with_attempt(
    alloc: Global,
    claims: &[Claim],
    worker: u32,
) -> Result<Items<Claim>, Memory>
    ensures { IfOk result (λ copies. copies ≡ with_attempt claims.now worker) }
{
    let mut copies = Items::new(alloc);
    let mut passed = false;
    for claim in claims {
        if passed || claim.worker != worker {
            copies.push(claim.copy(alloc)?)?;
        } else {
            copies.push(claim.attempt(alloc)?)?;
            passed = true;
        }
    }
    Ok(copies)
}
