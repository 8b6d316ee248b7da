//! Addresses.
ghost use Rattle.std.specs.Prelude.{◌≡◌, ◌≤◌, ◌++◌, length, IfOk, IfErr, OnOk, OnErr};
ghost use Rattle.std.proofs.Common.{rules};
ghost use Rattle.std.specs.Cmp.Rules.{comparing, hashing};
ghost use Rattle.std.specs.Hash as fed;
ghost use Rattle.std.specs.Str.{str_to_ascii_lowercase};
ghost use Rattle.mj_address.specs.Grammar.{IsLocal, IsDomain, IsAddress};
ghost use Rattle.mj_address.specs.Reading.{Gives, address_of, both_parts, domain_of, local_of, spelled};
ghost use Rattle.mj_address.specs.Same.{same_address, with_lower_local};

use crate::domain::Domain;
use crate::fault::AddressFault;
use crate::fold_case;
use crate::forms::{judge_domain, judge_local, split_at_last_at};
use std::alloc::{AllocError, Global};
use std::hash::{Hash, Hasher};
use std::marker::Model;

/// An address, as it was spelled: the pair of its local part, at most 64 bytes, and its domain.
#[derive(Debug, Drop)]
pub struct Address {
    local: Vec<u8>,
    domain: Domain,
}

impl Model for Address {
    ghost use Rattle.std.specs.Prelude.{ℕ, List};
    ghost use Rattle.mj_address.specs.Grammar.{IsAddress};

    ghost Value = { List ℕ × List ℕ };

    ghost view = { λ a. (a.local.items, a.domain) };

    ghost invariant = { λ a. IsAddress (a.local.items, a.domain) };
}

impl Address {
    /// Reads the bytes as an address: a local part of atoms joined by single dots (RFC 5322, 3.2.3),
    /// the last `@`, and a domain. The fault is the first of these that holds: `NoAt` without an `@`,
    /// `LocalTooLong` for more than 64 bytes before it (RFC 5321, 4.5.3.1.1), `BadLocal` for another
    /// form, and then those of `Domain::read`. Bytes that are no address take no memory.
    pub fn read(alloc: Global, bytes: &[u8]) -> Result<Address, AddressFault>
        ensures exact { Gives result (address_of bytes.now) }
        ensures spelling { IfOk result (λ address. bytes.now ≡ spelled address) }
    {
        let (local, domain) = judged_parts(bytes)?;
        Address::keep(alloc, local, domain).map_err(|_| AddressFault::Memory)
    }

    /// The address of a local part and a domain that stand apart. The fault is the local part's, as `read` says, and
    /// else the domain's. Bytes that are no address take no memory.
    pub fn from_parts(alloc: Global, local: &[u8], domain: &[u8]) -> Result<Address, AddressFault>
        ensures exact { Gives result (both_parts (local_of local.now) (domain_of domain.now)) }
        ensures parts { IfOk result (λ address. address ≡ (local.now, domain.now)) }
        ensures form { OnOk result (IsAddress (local.now, domain.now)) }
    {
        judge_local(local)?;
        judge_domain(domain)?;
        Address::keep(alloc, local, domain).map_err(|_| AddressFault::Memory)
    }

    // The address of these parts.
    fn keep(alloc: Global, local: &[u8], domain: &[u8]) -> Result<Address, AllocError>
        requires local { IsLocal local.now }
        requires domain { IsDomain domain.now }
        ensures { IfOk result (λ address. address ≡ (local.now, domain.now)) }
    {
        let domain = Domain::keep(alloc, domain)?;
        let local = Vec::from_slice(alloc, local)?;
        Ok(Address { local, domain })
    }

    /// The local part, as it was spelled.
    pub fn local(&self) -> &[u8]
        ensures value { result.now ≡ self.now.0 }
        ensures form { IsAddress self.now }
    {
        self.local.as_slice()
    }

    /// The domain.
    pub fn domain(&self) -> &Domain
        ensures value { result.now ≡ self.now.1 }
        ensures form { IsAddress self.now }
    {
        &self.domain
    }

    /// Whether the two are the same: local part and domain are, without regard to ASCII case.
    pub fn same(&self, other: &Address) -> bool
        ensures { result ≡ same_address self.now other.now }
    {
        fold_case::same(self.local(), other.local()) && self.domain.same(&other.domain)
    }

    /// An equal address, spelled alike.
    pub fn copy(&self, alloc: Global) -> Result<Address, AllocError>
        ensures { IfOk result (λ address. address ≡ self.now) }
    {
        Address::keep(alloc, self.local(), self.domain().as_slice())
    }

    /// The same address, spelled with its local part in ASCII lower case.
    pub fn with_lower_local(&self, alloc: Global) -> Result<Address, AllocError>
        ensures { IfOk result (λ address. address ≡ with_lower_local self.now) }
    {
        let local = self.local().to_ascii_lowercase(alloc)?;
        let domain = self.domain().copy(alloc)?;
        Ok(Address { local, domain })
    }

    /// The same local part at this domain, both spelled as they are.
    pub fn at(&self, alloc: Global, domain: &Domain) -> Result<Address, AllocError>
        ensures { IfOk result (λ address. address ≡ (self.now.0, domain.now)) }
    {
        Address::keep(alloc, self.local(), domain.as_slice())
    }

    /// How many bytes `write_to` appends: 3 to 320.
    pub fn written_len(&self) -> usize
        ensures value { result ≡ length (spelled self.now) }
        ensures bound { result ≤ 320 }
    {
        self.local().len() + 1 + self.domain().as_slice().len()
    }

    /// Appends the local part, `@` and the domain, as they were spelled. Where memory runs out the
    /// bytes stay as they were.
    #[tactic(auto, using(crate::proofs::Spellings::read_again))]
    pub fn write_to(&self, out: &mut Vec<u8>) -> Result<(), AllocError>
        ensures ok { OnOk result (out.new.items ≡ out.old.items ++ spelled self.now) }
        ensures err { OnErr result (out.new.items ≡ out.old.items) }
        // What is written is read as this address again.
        ensures again { address_of (spelled self.now) ≡ Ok self.now }
        ensures form { IsAddress self.now }
    {
        let (local, domain) = (self.local(), self.domain().as_slice());
        out.reserve(self.written_len())?;
        out.extend_from_slice(local)?;
        out.push(b'@')?;
        out.extend_from_slice(domain)
    }

    /// Appends what `write_to` does, in ASCII lower case. Where memory runs out the bytes stay as they
    /// were.
    pub fn write_lower_to(&self, out: &mut Vec<u8>) -> Result<(), AllocError>
        ensures ok { OnOk result (out.new.items ≡ out.old.items ++ str_to_ascii_lowercase (spelled self.now)) }
        ensures err { OnErr result (out.new.items ≡ out.old.items) }
    {
        let start = out.len();
        self.write_to(out)?;
        out[start..].make_ascii_lowercase();
        Ok(())
    }
}

// The parts of an address, or why the text is none.
fn judged_parts(text: &[u8]) -> Result<(&[u8], &[u8]), AddressFault>
    ensures ok { IfOk result (λ parts. address_of text.now ≡ Ok (parts.0.now, parts.1.now)) }
    ensures local { IfOk result (λ parts. IsLocal parts.0.now) }
    ensures domain { IfOk result (λ parts. IsDomain parts.1.now) }
    ensures spelling { IfOk result (λ parts. text.now ≡ spelled (parts.0.now, parts.1.now)) }
    ensures err { IfErr result (λ fault. address_of text.now ≡ Err fault) }
{
    let (local, domain) = split_at_last_at(text).ok_or(AddressFault::NoAt)?;
    judge_local(local)?;
    judge_domain(domain)?;
    Ok((local, domain))
}

impl PartialEq for Address {
    ghost eq = { same_address };

    ghost laws = { Prim.search (comparing, rules) };

    fn eq(&self, other: &Address) -> bool {
        self.same(other)
    }
}

impl Eq for Address {
    ghost laws = { Prim.search (comparing, rules) };
}

impl Hash for Address {
    ghost hash_input = { λ a. fed.slice fed.u8 (str_to_ascii_lowercase a.0) ++ fed.slice fed.u8 (str_to_ascii_lowercase a.1) };

    ghost respects_eq = { Prim.search (hashing, rules) };

    fn hash<H: Hasher>(&self, state: &mut H) {
        fold_case::hash(self.local(), state);
        self.domain.hash(state);
    }
}
