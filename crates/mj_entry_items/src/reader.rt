//! Numbers, strings and addresses, taken off the front of bytes.
ghost use Rattle.std.specs.Prelude.{◌≡◌, ◌==◌, length, IfOk, IfErr, Some, None};
ghost use Rattle.std.specs.Int.{w8, w16, w32, w64};
ghost use Rattle.mj_entry_rows.specs.Readings.{number_in, pair_in, string_in};
ghost use Rattle.mj_entry_rows.specs.Items.{address_in, domain_in, sender_in};
ghost use Rattle.mj_entry_items.specs.Taken.{Takes};

use crate::EntryFault;
use mj_address::{Address, Domain};
use mj_fields::{Bytes, take_bytes, take_u8, take_u16, take_u32, take_u64};
use std::alloc::Global;
use std::marker::Model;

/// The bytes that are left of an entry. Each call takes an item off their front; where there is none of its form, or no
/// room for it, what is left is unspecified. No count and no length takes memory before its bytes are there.
#[derive(Drop)]
pub struct Reader<'a> {
    alloc: Global,
    rest: &'a [u8],
}

impl<'a> Model for Reader<'a> {
    ghost use Rattle.std.specs.Prelude.{ℕ, List};

    ghost Value = { List ℕ };

    ghost view = { λ reader. reader.rest.now };
}

impl<'a> Reader<'a> {
    /// A reader of these bytes.
    pub fn new(alloc: Global, bytes: &'a [u8]) -> Reader<'a>
        ensures { result ≡ bytes.now }
    {
        Reader { alloc, rest: bytes }
    }

    /// Where items get their room.
    pub fn alloc(&self) -> Global {
        self.alloc
    }

    /// Whether nothing is left.
    pub fn is_at_end(&self) -> bool
        ensures { result ≡ (length self.now == 0) }
    {
        self.rest.is_empty()
    }

    /// A number of one byte.
    #[tactic(auto, using(crate::proofs::Fronts::number_front))]
    pub fn byte(&mut self) -> Result<u8, EntryFault>
        ensures { Takes result (number_in w8 self.old) self.new }
    {
        let (number, behind) = take_u8(self.rest, 0).ok_or(EntryFault::Bad)?;
        self.rest = &self.rest[behind..];
        Ok(number)
    }

    /// A number of two bytes.
    #[tactic(auto, using(crate::proofs::Fronts::number_front))]
    pub fn short(&mut self) -> Result<u16, EntryFault>
        ensures { Takes result (number_in w16 self.old) self.new }
    {
        let (number, behind) = take_u16(self.rest, 0).ok_or(EntryFault::Bad)?;
        self.rest = &self.rest[behind..];
        Ok(number)
    }

    /// A number of four bytes.
    #[tactic(auto, using(crate::proofs::Fronts::number_front))]
    pub fn word(&mut self) -> Result<u32, EntryFault>
        ensures { Takes result (number_in w32 self.old) self.new }
    {
        let (number, behind) = take_u32(self.rest, 0).ok_or(EntryFault::Bad)?;
        self.rest = &self.rest[behind..];
        Ok(number)
    }

    /// A number of eight bytes.
    #[tactic(auto, using(crate::proofs::Fronts::number_front))]
    pub fn long(&mut self) -> Result<u64, EntryFault>
        ensures { Takes result (number_in w64 self.old) self.new }
    {
        let (number, behind) = take_u64(self.rest, 0).ok_or(EntryFault::Bad)?;
        self.rest = &self.rest[behind..];
        Ok(number)
    }

    /// The text of a string, which stays where it is.
    #[tactic(auto, using(crate::proofs::Fronts::string_front))]
    pub fn text(&mut self) -> Result<&'a [u8], EntryFault>
        ensures text { IfOk result (λ text. string_in self.old ≡ Some (text.now, self.new)) }
        ensures bad { IfErr result (λ _. string_in self.old ≡ None) }
    {
        let (text, behind) = take_bytes(self.rest, 0).ok_or(EntryFault::Bad)?;
        self.rest = &self.rest[behind..];
        Ok(text)
    }

    /// The texts of two strings, which stay where they are.
    pub fn pair(&mut self) -> Result<(&'a [u8], &'a [u8]), EntryFault>
        ensures texts { IfOk result (λ pair. pair_in self.old ≡ Some ((pair.0.now, pair.1.now), self.new)) }
        ensures bad { IfErr result (λ _. pair_in self.old ≡ None) }
    {
        let first = self.text()?;
        let second = self.text()?;
        Ok((first, second))
    }

    /// A string, copied once.
    pub fn string(&mut self) -> Result<Bytes, EntryFault>
        ensures { Takes result (string_in self.old) self.new }
    {
        let text = self.text()?;
        Ok(Bytes::from_slice(self.alloc, text)?)
    }

    /// A domain.
    pub fn domain(&mut self) -> Result<Domain, EntryFault>
        ensures { Takes result (domain_in self.old) self.new }
    {
        let text = self.text()?;
        Ok(Domain::read(self.alloc, text)?)
    }

    /// An address.
    pub fn address(&mut self) -> Result<Address, EntryFault>
        ensures { Takes result (address_in self.old) self.new }
    {
        let (local, domain) = self.pair()?;
        Ok(Address::from_parts(self.alloc, local, domain)?)
    }

    /// A sender, or none for the null reverse-path.
    pub fn sender(&mut self) -> Result<Option<Address>, EntryFault>
        ensures { Takes result (sender_in self.old) self.new }
    {
        match self.byte()? {
            0 => Ok(None),
            1 => Ok(Some(self.address()?)),
            _ => Err(EntryFault::Bad),
        }
    }
}
