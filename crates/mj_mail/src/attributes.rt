ghost use Rattle.std.specs.Prelude.{◌≡◌, ◌↔◌, ◌≤◌, [], length, nat_le, slice_get, IsTrue, IfOk, IfErr, OnErr, if◌then◌else◌, Some};
ghost use Rattle.std.specs.Option.{option_copied, option_map};
ghost use Rattle.std.specs.List.Sorted.{IsPartitionPoint};
ghost use Rattle.std.specs.Map.{keys_of};
ghost use Rattle.mj_mail.specs.Attributes.{byte_order, attribute_value, with_attribute, without_attribute, AreAttributes};

use mj_fields::{Bytes, Memory};
use std::alloc::Global;
use std::cmp::Ordering;
use std::marker::Model;

/// How many attributes a mail may have.
pub const MAX_ATTRIBUTES: usize = 100;

/// The attributes of a mail: named texts that travel with it, [`MAX_ATTRIBUTES`] at most. Contracts see them
/// as the list of the pairs of a name and a value, in ascending byte order of the names, of which no two are
/// equal. A name is looked up by binary search.
#[derive(Debug, Drop)]
pub struct Attributes {
    pairs: Vec<(Bytes, Bytes)>,
}

impl Model for Attributes {
    ghost use Rattle.std.specs.Prelude.{ℕ, List};
    ghost use Rattle.mj_mail.specs.Attributes.{AreAttributes};

    ghost Value = { List (List ℕ × List ℕ) };

    ghost view = { λ a. a.pairs.items };

    ghost invariant = { λ a. AreAttributes a.pairs.items };
}

impl Attributes {
    /// No attributes. Takes no memory.
    pub fn new(alloc: Global) -> Attributes
        ensures { result ≡ [] }
    {
        Attributes {
            pairs: Vec::new(alloc),
        }
    }

    /// How many there are.
    pub fn len(&self) -> usize
        ensures count { result ≡ length self.now }
        ensures form { AreAttributes self.now }
    {
        self.pairs.len()
    }

    /// Whether there is none.
    pub fn is_empty(&self) -> bool
        ensures { IsTrue result ↔ (self.now ≡ []) }
    {
        self.pairs.is_empty()
    }

    /// The pair of a name and a value at the place k, counted from 0; `None` exactly where there are not so many.
    pub fn at(&self, k: usize) -> Option<(&[u8], &[u8])>
        ensures pair { option_map (λ pair. (pair.0.now, pair.1.now)) result ≡ slice_get self.now k }
        ensures form { AreAttributes self.now }
    {
        let (name, value) = self.pairs.get(k)?;
        Some((name.as_slice(), value.as_slice()))
    }

    /// The pairs of a name and a value in order, as a slice.
    pub fn as_slice(&self) -> &[(Bytes, Bytes)]
        ensures value { result.now ≡ self.now }
        ensures form { AreAttributes self.now }
    {
        self.pairs.as_slice()
    }

    /// The value of this name; `None` exactly where there is none.
    pub fn get(&self, name: &[u8]) -> Option<&[u8]>
        ensures { option_copied result ≡ attribute_value name.now self.now }
    {
        match self.place(name) {
            Ok(k) => Some(self.pairs[k].1.as_slice()),
            Err(_) => None,
        }
    }

    /// Gives the name this value, added at the name's place or in the place of its earlier value. The answer
    /// is false, and all stays, exactly where more than [`MAX_ATTRIBUTES`] would stand. Without room for the
    /// new texts all stays too.
    pub fn set(&mut self, alloc: Global, name: &[u8], value: &[u8]) -> Result<bool, Memory>
        ensures fits { IfOk result (λ fits. fits ≡ nat_le (length (with_attribute name.now value.now self.old)) MAX_ATTRIBUTES) }
        ensures list { IfOk result (λ fits. self.new ≡ (if fits then with_attribute name.now value.now self.old else self.old)) }
        ensures err { OnErr result (self.new ≡ self.old) }
    {
        match self.place(name) {
            Ok(k) => self.pairs[k].1 = Bytes::from_slice(alloc, value)?,
            Err(_) if self.len() == MAX_ATTRIBUTES => return Ok(false),
            Err(k) => {
                let name = Bytes::from_slice(alloc, name)?;
                let value = Bytes::from_slice(alloc, value)?;
                self.pairs.insert(k, (name, value))?;
            }
        }
        Ok(true)
    }

    /// Takes out the attribute of this name, if there is one.
    pub fn remove(&mut self, name: &[u8])
        ensures { self.new ≡ without_attribute name.now self.old }
    {
        self.pairs.retain(|(held, _)| held.as_slice() != name);
    }

    /// Takes out all attributes.
    pub fn clear(&mut self)
        ensures { self.new ≡ [] }
    {
        self.pairs.clear();
    }

    /// An equal value with room of its own.
    pub fn copy(&self, alloc: Global) -> Result<Attributes, Memory>
        ensures { IfOk result (λ attributes. attributes ≡ self.now) }
    {
        let mut pairs = Vec::with_capacity(alloc, self.pairs.len())?;
        for (name, value) in &self.pairs {
            pairs.push((name.copy(alloc)?, value.copy(alloc)?))?;
        }
        Ok(Attributes { pairs })
    }

    /// Where the attribute of this name stands, or where it belongs.
    fn place(&self, name: &[u8]) -> Result<usize, usize>
        ensures found { IfOk result (λ k. slice_get (keys_of self.now) k ≡ Some name.now) }
        ensures within { IfErr result (λ k. k ≤ length self.now) }
        ensures gap { IfErr result (λ k. IsPartitionPoint (λ pair. byte_order pair.0 name.now ≡ Ordering.Less) (λ pair. byte_order pair.0 name.now ≡ Ordering.Greater) self.now k) }
        ensures form { AreAttributes self.now }
    {
        self.pairs
            .binary_search_by(|(held, _)| held.as_slice().cmp(&name))
    }
}
