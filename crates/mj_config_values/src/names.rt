//! Names that are taken, or that are there.
ghost use Rattle.std.specs.Prelude.{◌≡◌, [], ◌∷◌, ◌++◌, false, OnOk, OnErr};
ghost use Rattle.std.specs.List.{list_any};
ghost use Rattle.std.specs.Str.{bytes_eq};
ghost use Rattle.mj_config_walk.specs.Values.{Gives, target};

use crate::values::is;
use indexmap::IndexSet;
use mj_config_walk::{PlanKind, Refusal};
use mj_fields::{Bytes, Memory};
use std::alloc::Global;
use std::marker::Model;

/// A set of names, in the order in which they were added.
#[derive(Debug, Drop)]
pub struct Names {
    names: IndexSet<Vec<u8>>,
}

impl Model for Names {
    ghost use Rattle.std.specs.Prelude.{ℕ, List, map};

    ghost Value = { List (List ℕ) };

    ghost view = { λ n. map (λ name. name.items) n.names.keys };
}

impl Names {
    /// No names. It takes no memory.
    pub fn new(alloc: Global) -> Names
        ensures { result ≡ [] }
    {
        Names {
            names: IndexSet::new(alloc),
        }
    }

    /// Whether this is one of the names. It costs one look-up by hash.
    pub fn contains(&self, name: &[u8]) -> bool
        ensures { result ≡ list_any (bytes_eq name.now) self.now }
    {
        self.names.contains(name)
    }

    /// Puts a new name at the end. Where memory runs out the names stay.
    pub fn add(&mut self, alloc: Global, name: &[u8]) -> Result<(), Memory>
        requires { list_any (bytes_eq name.now) self.old ≡ false }
        ensures ok { OnOk result (self.new ≡ self.old ++ name.now ∷ []) }
        ensures err { OnErr result (self.new ≡ self.old) }
    {
        let name = Vec::from_slice(alloc, name)?;
        self.names.insert(name)?;
        Ok(())
    }
}

/// A copy of the name of a processor that is one of these, or of `ghost`. Any other text is `UnknownProcessor`.
pub fn target(alloc: Global, names: &Names, text: &[u8]) -> Result<Bytes, Refusal>
    ensures { Gives result (target names.now text.now) }
{
    if !is(text, "ghost") && !names.contains(text) {
        return Err(Refusal::Kind(PlanKind::UnknownProcessor));
    }
    Ok(Bytes::from_slice(alloc, text)?)
}
