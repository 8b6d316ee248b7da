ghost use Rattle.std.specs.Prelude.{◌≡◌, ◌↔◌, [], length, slice_get, replicate, IsTrue, IfOk};

use mj_fields::Memory;
use std::alloc::Global;
use std::marker::Model;

/// A truth for each recipient of a mail, in the order of the recipients.
#[derive(Debug, Drop)]
pub struct Mask {
    truths: Vec<bool>,
}

impl Model for Mask {
    ghost use Rattle.std.specs.Prelude.{Bool, List};

    ghost Value = { List Bool };

    ghost view = { λ mask. mask.truths.items };
}

impl Mask {
    /// These truths, moved and not copied.
    pub(crate) fn from_vec(truths: Vec<bool>) -> Mask
        ensures { result ≡ truths.items }
    {
        Mask { truths }
    }

    /// The same truth for so many recipients.
    pub fn all(alloc: Global, value: bool, len: usize) -> Result<Mask, Memory>
        ensures { IfOk result (λ mask. mask ≡ replicate len value) }
    {
        let truths = vec![in alloc; value; len]?;
        Ok(Mask { truths })
    }

    /// The truth for the recipient at the place k, counted from 0; `None` exactly where there are not so many.
    pub fn at(&self, k: usize) -> Option<bool>
        ensures { result ≡ slice_get self.now k }
    {
        self.truths.get(k).copied()
    }

    /// All of them in order.
    pub fn as_slice(&self) -> &[bool]
        ensures { result.now ≡ self.now }
    {
        self.truths.as_slice()
    }

    /// For how many recipients there is one.
    pub fn len(&self) -> usize
        ensures { result ≡ length self.now }
    {
        self.truths.len()
    }

    /// Whether there is no recipient.
    pub fn is_empty(&self) -> bool
        ensures { IsTrue result ↔ (self.now ≡ []) }
    {
        self.truths.is_empty()
    }
}
