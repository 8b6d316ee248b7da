//! Domains.
ghost use Rattle.std.specs.Prelude.{◌≡◌, IfOk};
ghost use Rattle.std.proofs.Common.{rules};
ghost use Rattle.std.specs.Cmp.Rules.{comparing, hashing};
ghost use Rattle.std.specs.Hash as fed;
ghost use Rattle.std.specs.Str.{str_to_ascii_lowercase};
ghost use Rattle.mj_terms.specs.Text.{same_text};
ghost use Rattle.mj_address.specs.Grammar.{IsDomain};
ghost use Rattle.mj_address.specs.Reading.{domain_of, Gives};

use crate::fault::AddressFault;
use crate::fold_case;
use crate::forms::judge_domain;
use std::alloc::{AllocError, Global};
use std::hash::{Hash, Hasher};
use std::marker::Model;

/// A domain, as it was spelled: the list of its bytes, at most 255.
#[derive(Debug, Drop)]
pub struct Domain {
    bytes: Vec<u8>,
}

impl Model for Domain {
    ghost use Rattle.std.specs.Prelude.{ℕ, List};
    ghost use Rattle.mj_address.specs.Grammar.{IsDomain};

    ghost Value = { List ℕ };

    ghost view = { λ d. d.bytes.items };

    ghost invariant = { λ d. IsDomain d.bytes.items };
}

impl Domain {
    /// Reads the bytes as a domain: labels of 1 to 63 letters, digits and hyphens, with no hyphen at
    /// either end, joined by single dots (RFC 5321, 4.1.2). The fault is `DomainTooLong` for more
    /// than 255 bytes (RFC 5321, 4.5.3.1.2), and else `BadDomain`. Bytes that are no domain take no
    /// memory.
    pub fn read(alloc: Global, bytes: &[u8]) -> Result<Domain, AddressFault>
        ensures { Gives result (domain_of bytes.now) }
    {
        judge_domain(bytes)?;
        Domain::keep(alloc, bytes).map_err(|_| AddressFault::Memory)
    }

    /// The domain of these bytes.
    pub(crate) fn keep(alloc: Global, bytes: &[u8]) -> Result<Domain, AllocError>
        requires { IsDomain bytes.now }
        ensures { IfOk result (λ domain. domain ≡ bytes.now) }
    {
        let bytes = Vec::from_slice(alloc, bytes)?;
        Ok(Domain { bytes })
    }

    /// The bytes, as they were spelled.
    pub fn as_slice(&self) -> &[u8]
        ensures value { result.now ≡ self.now }
        ensures form { IsDomain self.now }
    {
        self.bytes.as_slice()
    }

    /// Whether the two are the same, without regard to ASCII case.
    pub fn same(&self, other: &Domain) -> bool
        ensures { result ≡ same_text self.now other.now }
    {
        fold_case::same(self.as_slice(), other.as_slice())
    }

    /// An equal domain, spelled alike.
    pub fn copy(&self, alloc: Global) -> Result<Domain, AllocError>
        ensures { IfOk result (λ domain. domain ≡ self.now) }
    {
        Domain::keep(alloc, self.as_slice())
    }
}

impl PartialEq for Domain {
    ghost eq = { same_text };

    ghost laws = { Prim.search (comparing, rules) };

    fn eq(&self, other: &Domain) -> bool {
        self.same(other)
    }
}

impl Eq for Domain {
    ghost laws = { Prim.search (comparing, rules) };
}

impl Hash for Domain {
    ghost hash_input = { λ domain. fed.slice fed.u8 (str_to_ascii_lowercase domain) };

    ghost respects_eq = { Prim.search (hashing, rules) };

    fn hash<H: Hasher>(&self, state: &mut H) {
        fold_case::hash(self.as_slice(), state);
    }
}
