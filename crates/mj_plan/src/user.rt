//! Names of users.
ghost use Rattle.std.specs.Prelude.{◌≡◌, IfOk};
ghost use Rattle.std.specs.List.{list_any};
ghost use Rattle.std.proofs.Common.{rules};
ghost use Rattle.std.specs.Cmp.Rules.{comparing, hashing};
ghost use Rattle.std.specs.Hash as fed;
ghost use Rattle.std.specs.Str.{str_to_ascii_lowercase};
ghost use Rattle.mj_terms.specs.Text.{same_text};

use crate::listed::{Copied, Listed};
use mj_address::{hash_without_case, same_without_case};
use mj_fields::{Bytes, Items, Memory};
use std::alloc::Global;
use std::borrow::CowSlice;
use std::hash::{Hash, Hasher};
use std::marker::Model;

/// The name of a user, as it was spelled: the list of its bytes, which it owns or borrows. Two names are the
/// same where they differ in ASCII case alone.
#[derive(Debug, Drop)]
pub struct User<'a> {
    name: CowSlice<'a, u8>,
}

impl<'a> Model for User<'a> {
    ghost use Rattle.std.specs.Prelude.{ℕ, List};
    ghost use Rattle.std.specs.Cow.{cow_slice_items};

    ghost Value = { List ℕ };

    ghost view = { λ user. cow_slice_items user.name };
}

impl<'a> User<'a> {
    /// The user of these bytes, which are moved and not copied.
    pub fn from_bytes(bytes: Bytes) -> User<'a>
        ensures { result ≡ bytes }
    {
        User {
            name: CowSlice::Owned(bytes.into_vec()),
        }
    }

    /// The user of these bytes, which are borrowed. It takes no memory.
    pub fn borrowed(bytes: &'a [u8]) -> User<'a>
        ensures { result ≡ bytes.now }
    {
        User {
            name: CowSlice::Borrowed(bytes),
        }
    }

    /// The bytes, as they were spelled.
    pub fn as_slice(&self) -> &[u8]
        ensures { result.now ≡ self.now }
    {
        self.name.as_slice()
    }
}

impl PartialEq for User<'_> {
    ghost eq = { same_text };

    ghost laws = { Prim.search (comparing, rules) };

    fn eq(&self, other: &Self) -> bool {
        same_without_case(self.as_slice(), other.as_slice())
    }
}

impl Eq for User<'_> {
    ghost laws = { Prim.search (comparing, rules) };
}

impl Hash for User<'_> {
    ghost hash_input = { λ user. fed.slice fed.u8 (str_to_ascii_lowercase user) };

    ghost respects_eq = { Prim.search (hashing, rules) };

    fn hash<H: Hasher>(&self, state: &mut H) {
        hash_without_case(self.as_slice(), state);
    }
}

impl Copied for User<'static> {
    fn copied(&self, alloc: Global) -> Result<User<'static>, Memory> {
        Ok(User::from_bytes(Bytes::from_slice(alloc, self.as_slice())?))
    }
}

impl Listed<User<'static>> {
    /// The list of the users of these names, which are moved. More than eight take a copy of each.
    pub fn of_names(alloc: Global, names: Items<Bytes>) -> Result<Listed<User<'static>>, Memory>
        ensures { IfOk result (λ listed. listed ≡ names) }
    {
        let mut users = Items::new(alloc);
        for name in names.into_vec() {
            users.push(User::from_bytes(name))?;
        }
        Listed::new(alloc, users)
    }

    /// Whether one of the users has this name, without regard to ASCII case. It takes no memory.
    pub fn has_user(&self, name: &[u8]) -> bool
        ensures { result ≡ list_any (same_text name.now) self.now }
    {
        self.contains(&User::borrowed(name))
    }
}
