//! The two forms in which a list of recipients is kept.
ghost use Rattle.std.specs.Prelude.{◌≡◌, ◌∷◌, [], ◌++◌, ◌≤◌, not, length, IfOk, OnErr, if◌then◌else◌};
ghost use Rattle.indexmap.specs.IndexSet.{spare};
ghost use Rattle.mj_address.specs.Kept.{listed};
ghost use Rattle.mj_address.specs.Same.{has_same, AreDifferent};

use crate::address::Address;
use indexmap::IndexSet;
use std::alloc::{AllocError, Global};
use std::mem;

/// Addresses in order, found by their hashes, or not hashed yet.
#[derive(Debug, Drop)]
pub enum Kept {
    Hashed(IndexSet<Address>),
    Plain(Vec<Address>),
}

impl Kept {
    /// All of them in order, as a slice.
    pub fn as_slice(&self) -> &[Address]
        ensures { result.now ≡ listed self.now }
    {
        match self {
            Kept::Hashed(set) => set.as_slice(),
            Kept::Plain(list) => list.as_slice(),
        }
    }

    /// Whether an address that is the same is among them: by one look-up, or one after another.
    pub fn contains(&self, address: &Address) -> bool
        ensures { result ≡ has_same (listed self.now) address.now }
    {
        match self {
            Kept::Hashed(set) => set.contains(address),
            Kept::Plain(list) => list.iter().any(|kept| address.same(kept)),
        }
    }

    /// Adds the address at the end, unless one that is the same is there, and says whether it did.
    /// They are hashed from then on. Where memory runs out they stay.
    pub fn add(&mut self, address: Address) -> Result<bool, AllocError>
        requires { AreDifferent (listed self.old) }
        ensures added { IfOk result (λ added. added ≡ not (has_same (listed self.old) address)) }
        ensures list { IfOk result (λ added. listed self.new ≡ (if added then listed self.old ++ address ∷ [] else listed self.old)) }
        ensures err { OnErr result (listed self.new ≡ listed self.old) }
        ensures different { AreDifferent (listed self.new) }
    {
        match self {
            Kept::Hashed(set) => Ok(set.insert(address)?),
            Kept::Plain(list) => {
                let mut set = hashed(list)?;
                let added = set.insert(address);
                *self = Kept::Hashed(set);
                Ok(added?)
            }
        }
    }

    /// All of them in order, moved and not copied.
    pub fn into_list(self, alloc: Global) -> Result<Vec<Address>, AllocError>
        ensures { IfOk result (λ list. list.items ≡ listed self) }
    {
        match self {
            Kept::Hashed(set) => unhashed(alloc, set),
            Kept::Plain(list) => Ok(list),
        }
    }
}

// The addresses, hashed, and room for one more. Where memory runs out the list keeps them.
fn hashed(list: &mut Vec<Address>) -> Result<IndexSet<Address>, AllocError>
    requires { AreDifferent list.old.items }
    ensures ok { IfOk result (λ set. set.keys ≡ list.old.items) }
    ensures err { OnErr result (list.new.items ≡ list.old.items) }
{
    let alloc = *list.allocator();
    let set = IndexSet::with_capacity(alloc, list.len() + 1)?;
    Ok(filled(set, mem::replace(list, Vec::new(alloc))))
}

// The set with these addresses. It has room for each, so that no insertion fails.
fn filled(set: IndexSet<Address>, list: Vec<Address>) -> IndexSet<Address>
    requires empty { set.keys ≡ [] }
    requires room { length list.items ≤ spare set }
    requires different { AreDifferent list.items }
    ensures { result.keys ≡ list.items }
{
    let mut set = set;
    for address in list {
        let _ = set.insert(address);
    }
    set
}

// The addresses of the set, in order.
fn unhashed(alloc: Global, set: IndexSet<Address>) -> Result<Vec<Address>, AllocError>
    ensures { IfOk result (λ list. list.items ≡ set.keys) }
{
    let mut list = Vec::with_capacity(alloc, set.len())?;
    for address in set {
        list.push(address)?;
    }
    Ok(list)
}
