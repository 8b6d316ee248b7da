ghost use Rattle.std.specs.Prelude.{◌≡◌, ℕ, [], None, take, true, IsErr, OnOk, OnErr};
ghost use Rattle.mj_terms.specs.Causes.{HasCause};
ghost use Rattle.mj_fields.specs.Calls.{is_named};
ghost use Rattle.mj_io.specs.Grown.{grown};
ghost use Rattle.mj_io.specs.Held.{took, took_nothing};

use crate::{Failed, Sink};
use mj_fields::{Bytes, Calls, Items};
use std::alloc::Global;
use std::marker::Model;

/// A sink that takes every piece, keeps none and tells nothing.
#[derive(Clone, Copy, Debug, PartialEq, Eq)]
pub struct SureSink;

impl Sink for SureSink {
    ghost told = { λ _. None };

    ghost faults = { λ _. 0 };

    fn write(&mut self, _piece: &[u8]) -> Result<(), Failed> {
        Ok(())
    }
}

/// A sink in memory that tells its bytes. The calls whose numbers are named fail; they are counted from 1.
/// A piece that finds no room is a fault too.
#[derive(Debug, Drop)]
pub struct MemorySink {
    bytes: Bytes,
    calls: Calls,
}

impl Model for MemorySink {
    ghost use Rattle.mj_io.specs.Held.{HeldBytes};

    ghost Value = { HeldBytes };

    ghost view = { λ s. record { bytes = s.bytes; failing = s.calls.failing; calls = s.calls.made; faults = s.calls.faults } };
}

impl MemorySink {
    /// No bytes yet, and the numbers of the calls that are to fail. Takes no memory.
    pub fn make(alloc: Global, failing: Items<u64>) -> MemorySink
        ensures { result ≡ record { bytes = []; failing = failing; calls = 0; faults = 0 } }
    {
        MemorySink {
            bytes: Bytes::new(alloc),
            calls: Calls::new(failing),
        }
    }

    /// The bytes that it tells. No call on the device.
    pub fn bytes(&self) -> &[u8]
        ensures { result.now ≡ self.now.bytes }
    {
        self.bytes.as_slice()
    }
}

impl Sink for MemorySink {
    ghost use Rattle.std.specs.Prelude.{Some};

    ghost told = { λ s. Some s.bytes };

    ghost faults = { λ s. s.faults };

    fn write(&mut self, piece: &[u8]) -> Result<(), Failed>
        ensures ok { OnOk result (Some self.new.bytes ≡ grown (Some self.old.bytes) piece.now) }
        ensures err { OnErr result ((k : ℕ) × (Some self.new.bytes ≡ grown (Some self.old.bytes) (take k piece.now))) }
        ensures cause { HasCause (record {}) self.old.faults self.new.faults result }
        // It fails where it was told to, and else only where the piece finds no room.
        ensures named { is_named self.old.failing self.old.calls ≡ true → IsErr result }
        ensures held { OnOk result (self.new ≡ took self.old piece.now) }
        ensures failed { OnErr result (self.new ≡ took_nothing self.old) }
    {
        if self.calls.next_fails() {
            return Err(Failed);
        }
        match self.bytes.extend(piece) {
            Ok(()) => Ok(()),
            Err(_) => {
                self.calls.count_fault();
                Err(Failed)
            }
        }
    }
}
