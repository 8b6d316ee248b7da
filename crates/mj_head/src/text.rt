//! Bytes that copies share.
ghost use Rattle.std.specs.Prelude.{◌≡◌, [], length, IfOk};

use std::alloc::{AllocError, Global};
use std::marker::Model;
use std::sync::ArcSlice;

/// The bytes of a text. They don't change, so that a copy takes no memory of its own.
#[derive(Debug, Drop)]
pub struct Text {
    alloc: Global,
    shared: Option<ArcSlice<u8>>,
}

impl Model for Text {
    ghost use Rattle.std.specs.Prelude.{ℕ, List, []};
    ghost use Rattle.std.specs.Option.{option_map_or};
    ghost use Rattle.std.specs.Arc.{arc_slice_items};

    ghost Value = { List ℕ };

    ghost view = { λ text. option_map_or arc_slice_items text.shared [] };
}

impl Text {
    /// No bytes. It takes no memory.
    pub fn new(alloc: Global) -> Text
        ensures { result ≡ [] }
    {
        Text {
            alloc,
            shared: None,
        }
    }

    /// These bytes, which are moved.
    pub fn from_vec(alloc: Global, bytes: Vec<u8>) -> Result<Text, AllocError>
        ensures { IfOk result (λ text. text ≡ bytes.items) }
    {
        Ok(Text {
            alloc,
            shared: Some(ArcSlice::from_vec(bytes)?),
        })
    }

    /// The bytes.
    pub fn as_slice(&self) -> &[u8]
        ensures { result.now ≡ self.now }
    {
        match &self.shared {
            Some(bytes) => bytes.as_slice(),
            None => &[],
        }
    }

    /// How many there are.
    pub fn len(&self) -> usize
        ensures { result ≡ length self.now }
    {
        self.as_slice().len()
    }

    /// The allocator of the bytes.
    pub fn allocator(&self) -> Global {
        self.alloc
    }

    /// The same bytes, which both then share.
    pub fn copy(&self) -> Result<Text, AllocError>
        ensures { IfOk result (λ text. text ≡ self.now) }
    {
        let shared = match &self.shared {
            Some(bytes) => Some(bytes.clone()?),
            None => None,
        };
        Ok(Text {
            alloc: self.alloc,
            shared,
        })
    }

    /// The bytes in memory of their own, with room for more behind them.
    pub fn with_room(&self, more: usize) -> Result<Vec<u8>, AllocError>
        ensures { IfOk result (λ bytes. bytes.items ≡ self.now) }
    {
        let mut bytes = Vec::with_capacity(self.alloc, self.len().saturating_add(more))?;
        bytes.extend_from_slice(self.as_slice())?;
        Ok(bytes)
    }
}
