//! Lists of recipients.
ghost use Rattle.std.specs.Prelude.{◌≡◌, ◌↔◌, ℕ, List, [], ◌∷◌, ◌++◌, not, length, slice_get, IsTrue, IfOk, OnOk, OnErr};
ghost use Rattle.std.specs.Iterator.Adapters.{IterYieldsInOrder};
ghost use Rattle.std.specs.Option.{option_copied};
ghost use Rattle.std.specs.Slice.Iter.{iter_rest};
ghost use Rattle.mj_address.specs.Masks.{taken, left};
ghost use Rattle.mj_address.specs.Same.{has_same, with_address, with_addresses, distinct, AreRecipients};

use crate::address::Address;
use crate::kept::Kept;
use crate::sides::sift;
use indexmap::IndexSet;
use std::alloc::{AllocError, Global};
use std::marker::Model;
use std::slice::Iter;

/// The recipients of a mail: addresses in the order of their first mention, no two the same. The one
/// that came first keeps its spelling. A copy and the parts of a split hash none of them until an
/// address is added.
#[derive(Debug, Drop)]
pub struct Recipients {
    kept: Kept,
}

impl Model for Recipients {
    ghost use Rattle.std.specs.Prelude.{ℕ, List};
    ghost use Rattle.mj_address.specs.Kept.{listed};
    ghost use Rattle.mj_address.specs.Same.{AreRecipients};

    ghost Value = { List (List ℕ × List ℕ) };

    ghost view = { λ r. listed r.kept };

    ghost invariant = { λ r. AreRecipients (listed r.kept) };
}

impl Recipients {
    /// No recipients. It takes no memory.
    pub fn new(alloc: Global) -> Recipients
        ensures { result ≡ [] }
    {
        Recipients {
            kept: Kept::Hashed(IndexSet::new(alloc)),
        }
    }

    /// This recipient alone.
    pub fn one(alloc: Global, address: Address) -> Result<Recipients, AllocError>
        ensures { IfOk result (λ recipients. recipients ≡ address ∷ []) }
    {
        let mut recipients = Recipients::new(alloc);
        recipients.add(address)?;
        Ok(recipients)
    }

    /// These addresses, no two the same. It takes no memory, and hashes none of them.
    pub fn of_different(addresses: Vec<Address>) -> Recipients
        requires { AreRecipients addresses.items }
        ensures { result ≡ addresses.items }
    {
        Recipients {
            kept: Kept::Plain(addresses),
        }
    }

    /// Of addresses that are the same the first, in order. Each costs one look-up by hash. Where memory
    /// runs out all are dropped.
    pub fn from_addresses(alloc: Global, addresses: Vec<Address>) -> Result<Recipients, AllocError>
        ensures { IfOk result (λ recipients. recipients ≡ distinct addresses.items) }
    {
        let mut recipients = Recipients::new(alloc);
        recipients.add_all(addresses)?;
        Ok(recipients)
    }

    /// Adds the address at the end, and says whether it did: not where one that is the same stands,
    /// which then keeps its place and its spelling. It costs one look-up by hash; the first on a copy or
    /// on a part of a split hashes all that are there. Where memory runs out the list stays as it was,
    /// and the address is dropped.
    pub fn add(&mut self, address: Address) -> Result<bool, AllocError>
        ensures added { IfOk result (λ added. added ≡ not (has_same self.old address)) }
        ensures list { OnOk result (self.new ≡ with_address self.old address) }
        ensures err { OnErr result (self.new ≡ self.old) }
    {
        let _form = address.local();
        self.kept.add(address)
    }

    /// Adds the addresses at the end, one after another as `add` does. Where memory runs out those
    /// before the one that had no room are added, and the rest are dropped.
    pub fn add_all(&mut self, addresses: Vec<Address>) -> Result<(), AllocError>
        ensures { OnOk result (self.new ≡ with_addresses self.old addresses.items) }
    {
        for address in addresses {
            self.add(address)?;
        }
        Ok(())
    }

    /// How many there are.
    pub fn len(&self) -> usize
        ensures count { result ≡ length self.now }
        ensures form { AreRecipients self.now }
    {
        self.kept.as_slice().len()
    }

    /// Whether there is none.
    pub fn is_empty(&self) -> bool
        ensures { IsTrue result ↔ (self.now ≡ []) }
    {
        self.kept.as_slice().is_empty()
    }

    /// The recipient at the place k, counted from 0, or `None` where there are not so many.
    pub fn get(&self, k: usize) -> Option<&Address>
        ensures { option_copied result ≡ slice_get self.now k }
    {
        self.kept.as_slice().get(k)
    }

    /// Whether an address that is the same is among them. It costs one look-up by hash, and goes over
    /// the list where it is a copy or a part of a split.
    pub fn contains(&self, address: &Address) -> bool
        ensures { result ≡ has_same self.now address.now }
    {
        self.kept.contains(address)
    }

    /// All of them in order, as a slice.
    pub fn as_slice(&self) -> &[Address]
        ensures value { result.now ≡ self.now }
        ensures form { AreRecipients self.now }
    {
        self.kept.as_slice()
    }

    /// All of them in order.
    pub fn iter(&self) -> Iter<'_, Address>
        ensures rest { iter_rest result ≡ self.now }
        ensures runs { IterYieldsInOrder (List ℕ × List ℕ) }
        ensures form { AreRecipients self.now }
    {
        self.as_slice().iter()
    }

    /// All of them in order, moved and not copied.
    pub fn into_vec(self, alloc: Global) -> Result<Vec<Address>, AllocError>
        ensures { IfOk result (λ list. list.items ≡ self) }
    {
        let Recipients { kept } = self;
        kept.into_list(alloc)
    }

    /// An equal list, in the same order and spelled alike. It takes memory once for the list and twice
    /// for each address.
    pub fn copy(&self, alloc: Global) -> Result<Recipients, AllocError>
        ensures { IfOk result (λ recipients. recipients ≡ self.now) }
    {
        let addresses = copied(alloc, self.as_slice())?;
        Ok(Recipients {
            kept: Kept::Plain(addresses),
        })
    }

    /// Those at whose place the mask is true, and the others, both in order. The addresses are moved and
    /// not copied. Where memory runs out all are dropped.
    pub fn split(self, alloc: Global, mask: &[bool]) -> Result<(Recipients, Recipients), AllocError>
        requires { length mask.now ≡ length self }
        ensures taken { IfOk result (λ parts. parts.0 ≡ taken mask.now self) }
        ensures left { IfOk result (λ parts. parts.1 ≡ left mask.now self) }
    {
        let Recipients { kept } = self;
        let sides = sift(alloc, mask, kept.into_list(alloc)?)?;
        Ok((
            Recipients {
                kept: Kept::Plain(sides.taken),
            },
            Recipients {
                kept: Kept::Plain(sides.left),
            },
        ))
    }
}

// Copies of the addresses, in order.
fn copied(alloc: Global, addresses: &[Address]) -> Result<Vec<Address>, AllocError>
    ensures { IfOk result (λ copies. copies.items ≡ addresses.now) }
{
    let mut copies = Vec::with_capacity(alloc, addresses.len())?;
    for address in addresses {
        copies.push(address.copy(alloc)?)?;
    }
    Ok(copies)
}
