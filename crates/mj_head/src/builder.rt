//! A head that is put together field by field.
ghost use Rattle.std.specs.Prelude.{◌≡◌, ◌+◌, ◌≤◌, ◌↔◌, [], ◌∷◌, ◌++◌, true, false, length, IsTrue, Result, IfOk, OnOk, OnErr};
ghost use Rattle.mj_head.specs.Head.{written, is_field};
ghost use Rattle.mj_head.specs.Fields.{IsSomeHead};

use crate::cursor::WRITTEN_LIMIT;
use crate::fields::put_field;
use crate::head::Head;
use crate::read::is_field;
use std::alloc::{AllocError, Global};
use std::marker::Model;

/// A head that is put together field by field. A field costs its own bytes alone, where
/// [`Head::add_raw`] copies those of the head too. Contracts see the list of the fields.
#[derive(Debug, Drop)]
pub struct HeadBuilder {
    text: Vec<u8>,
}

impl Model for HeadBuilder {
    ghost use Rattle.std.specs.Prelude.{◌≡◌, ℕ, List, true};
    ghost use Rattle.mj_head.specs.Head.{fields_in, written, is_head};

    ghost Value = { List (List ℕ × List ℕ) };

    ghost view = { λ head. fields_in head.text.items };

    ghost invariant = { λ head. (written (fields_in head.text.items) ≡ head.text.items)
        × (is_head (fields_in head.text.items) ≡ true) };
}

impl HeadBuilder {
    /// No fields. It takes no memory.
    pub fn new(alloc: Global) -> HeadBuilder
        ensures { result ≡ [] }
    {
        HeadBuilder {
            text: Vec::new(alloc),
        }
    }

    /// Adds the field of this name and raw body at the end. The answer is `false`, with the fields as
    /// before, exactly where no text has the head with this field, as [`Head::add_raw`] says.
    #[inline(always)]
    pub fn add_raw(&mut self, name: &[u8], body: &[u8]) -> Result<bool, AllocError>
        ensures answer { IfOk result (λ added. IsTrue added
            ↔ IsSomeHead (self.old ++ (name.now, body.now) ∷ [])) }
        ensures added { result ≡ Result.Ok true
            → self.new ≡ self.old ++ (name.now, body.now) ∷ [] }
        ensures refused { result ≡ Result.Ok false → self.new ≡ self.old }
        ensures err { OnErr result (self.new ≡ self.old) }
    {
        let needed = name.len().saturating_add(body.len()).saturating_add(3);
        if needed > WRITTEN_LIMIT - self.text.len() || !is_field(name, body) {
            return Ok(false);
        }
        put_field(&mut self.text, name, b"", body)?;
        Ok(true)
    }

    /// The head of the fields.
    pub fn finish(self, alloc: Global) -> Result<Head, AllocError>
        ensures { IfOk result (λ head. head ≡ self) }
    {
        Head::of(alloc, self.text)
    }
}
