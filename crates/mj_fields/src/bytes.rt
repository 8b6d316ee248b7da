ghost use Rattle.std.specs.Prelude.{◌≡◌, [], ◌∷◌, ◌++◌, ◌<◌, ◌^◌, ◌↔◌, length, IsTrue, IfOk, OnOk, OnErr};

use crate::Memory;
use std::alloc::Global;
use std::marker::Model;

/// A string of bytes that owns its room. Contracts see it as the list of its bytes.
#[derive(Debug, Drop)]
pub struct Bytes {
    bytes: Vec<u8>,
}

impl Model for Bytes {
    ghost use Rattle.std.specs.Prelude.{List, ℕ};

    ghost Value = { List ℕ };

    ghost view = { λ b. b.bytes.items };
}

impl Bytes {
    /// No bytes. Takes no memory.
    pub fn new(alloc: Global) -> Bytes
        ensures { result ≡ [] }
    {
        Bytes {
            bytes: Vec::new(alloc),
        }
    }

    /// These bytes, moved and not copied.
    pub fn from_vec(bytes: Vec<u8>) -> Bytes
        ensures { result ≡ bytes.items }
    {
        Bytes { bytes }
    }

    /// A copy of these bytes.
    pub fn from_slice(alloc: Global, bytes: &[u8]) -> Result<Bytes, Memory>
        ensures { IfOk result (λ b. b ≡ bytes.now) }
    {
        let bytes = Vec::from_slice(alloc, bytes)?;
        Ok(Bytes { bytes })
    }

    /// An equal value with room of its own.
    pub fn copy(&self, alloc: Global) -> Result<Bytes, Memory>
        ensures { IfOk result (λ b. b ≡ self.now) }
    {
        Bytes::from_slice(alloc, self.as_slice())
    }

    /// The bytes as the `Vec` that held them, moved and not copied.
    pub fn into_vec(self) -> Vec<u8>
        ensures { result.items ≡ self }
    {
        let Bytes { bytes } = self;
        bytes
    }

    pub fn as_slice(&self) -> &[u8]
        ensures { result.now ≡ self.now }
    {
        self.bytes.as_slice()
    }

    pub fn len(&self) -> usize
        ensures count { result ≡ length self.now }
        ensures small { result < 2 ^ 63 }
    {
        self.bytes.len()
    }

    pub fn is_empty(&self) -> bool
        ensures { IsTrue result ↔ (self.now ≡ []) }
    {
        self.bytes.is_empty()
    }

    /// Puts a byte at the end. Without room for it the bytes stay.
    pub fn push(&mut self, byte: u8) -> Result<(), Memory>
        ensures ok { OnOk result (self.new ≡ self.old ++ byte ∷ []) }
        ensures err { OnErr result (self.new ≡ self.old) }
    {
        self.bytes.push(byte)?;
        Ok(())
    }

    /// Puts two strings of bytes at the end, the one behind the other. Without room for both the bytes stay.
    pub fn extend_two(&mut self, first: &[u8], second: &[u8]) -> Result<(), Memory>
        ensures ok { OnOk result (self.new ≡ self.old ++ (first.now ++ second.now)) }
        ensures err { OnErr result (self.new ≡ self.old) }
    {
        self.bytes.reserve(first.len() + second.len())?;
        self.bytes.extend_from_slice(first)?;
        self.bytes.extend_from_slice(second)?;
        Ok(())
    }

    /// Puts bytes at the end. Without room for all of them the bytes stay.
    pub fn extend(&mut self, bytes: &[u8]) -> Result<(), Memory>
        ensures ok { OnOk result (self.new ≡ self.old ++ bytes.now) }
        ensures err { OnErr result (self.new ≡ self.old) }
    {
        self.bytes.extend_from_slice(bytes)?;
        Ok(())
    }
}
