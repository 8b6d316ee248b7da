//! What lists of a configuration name, found by hash.
ghost use Rattle.std.specs.Prelude.{◌≡◌, length, IfOk};
ghost use Rattle.std.specs.List.{list_any};
ghost use Rattle.mj_plan.specs.Listed.{IsIndexOf};

use indexmap::IndexSet;
use mj_address::{Address, Domain};
use mj_fields::{Items, Memory};
use std::alloc::Global;
use std::hash::Hash;
use std::marker::Model;

/// Up to so many items are gone over, which costs less than a look-up by hash.
const GONE_OVER: usize = 8;

/// What can be copied into room of its own.
pub trait Copied {
    /// An equal value, spelled alike.
    fn copied(&self, alloc: Global) -> Result<Self, Memory>
        ensures { IfOk result (λ copy. copy ≡ self.now) };
}

impl Copied for Address {
    fn copied(&self, alloc: Global) -> Result<Address, Memory> {
        Ok(self.copy(alloc)?)
    }
}

impl Copied for Domain {
    fn copied(&self, alloc: Global) -> Result<Domain, Memory> {
        Ok(self.copy(alloc)?)
    }
}

/// What a list of the configuration names, in its order. Contracts see it as that list; whether something is
/// among its items is found by hash, at the cost of one look-up whatever its length.
#[derive(Debug, Drop)]
pub struct Listed<T: Eq + Hash> {
    items: Items<T>,
    // Of more items than are gone over: a copy of each, no two the same.
    index: Option<IndexSet<T>>,
}

impl<T: Eq + Hash> Model for Listed<T> {
    ghost use Rattle.std.specs.Prelude.{List, IfSome};
    ghost use Rattle.std.specs.Coded.{coded_list};
    ghost use Rattle.mj_plan.specs.Listed.{IsIndexOf};

    ghost Value = { List T };

    ghost coded = { coded_list T.code };

    ghost view = { λ listed. listed.items };

    ghost invariant = { λ listed. IfSome listed.index (λ index. IsIndexOf T.eq listed.items index.keys) };
}

impl<T: Eq + Hash> Listed<T> {
    /// The items, in their order.
    pub fn as_slice(&self) -> &[T]
        ensures { result.now ≡ self.now }
    {
        self.items.as_slice()
    }

    /// How many items there are.
    pub fn len(&self) -> usize
        ensures { result ≡ length self.now }
    {
        self.items.len()
    }

    /// Whether one of the items is equal to this one.
    pub fn contains(&self, wanted: &T) -> bool
        ensures { result ≡ list_any (T.eq wanted.now) self.now }
    {
        match &self.index {
            Some(index) => index.contains(wanted),
            None => is_among(wanted, self.items.as_slice()),
        }
    }
}

impl<T: Eq + Hash + Copied + Drop> Listed<T> {
    /// The list of these items. More than eight take a copy of each.
    pub fn new(alloc: Global, items: Items<T>) -> Result<Listed<T>, Memory>
        ensures { IfOk result (λ listed. listed ≡ items) }
    {
        if items.len() <= GONE_OVER {
            return Ok(Listed { items, index: None });
        }
        let index = index_of(alloc, items.as_slice())?;
        Ok(Listed {
            items,
            index: Some(index),
        })
    }
}

// Whether one of the items is equal to this one, found by going over them.
fn is_among<T: Eq>(wanted: &T, items: &[T]) -> bool
    ensures { result ≡ list_any (T.eq wanted.now) items.now }
{
    items.iter().any(|item| *wanted == *item)
}

// A copy of each item, no two the same.
fn index_of<T: Eq + Hash + Copied + Drop>(alloc: Global, items: &[T]) -> Result<IndexSet<T>, Memory>
    ensures { IfOk result (λ index. IsIndexOf T.eq items.now index.keys) }
{
    let mut index = IndexSet::with_capacity(alloc, items.len())?;
    for item in items {
        index.insert(item.copied(alloc)?)?;
    }
    Ok(index)
}
