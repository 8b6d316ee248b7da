ghost use Rattle.std.specs.Prelude.{◌≡◌, ◌⊎◌, [], ◌∷◌, ◌++◌, None, true, IsErr, OnOk, OnErr};
ghost use Rattle.mj_terms.specs.Causes.{HasCause};
ghost use Rattle.mj_fields.specs.Calls.{is_named};
ghost use Rattle.mj_io.specs.Grown.{grown};
ghost use Rattle.mj_io.specs.Held.{presented, presented_nothing};

use crate::{Failed, Wire};
use mj_fields::{Bytes, Calls, Items, Memory};
use std::alloc::Global;
use std::marker::Model;

/// A wire that takes every line, keeps none and tells nothing.
#[derive(Clone, Copy, Debug, PartialEq, Eq)]
pub struct SureWire;

impl Wire for SureWire {
    ghost told = { λ _. None };

    ghost faults = { λ _. 0 };

    fn present(&mut self, _line: &[u8]) -> Result<(), Failed> {
        Ok(())
    }
}

/// A wire in memory that tells its lines. The calls whose numbers are named fail; they are counted from 1.
/// A line that finds no room is a fault too.
#[derive(Debug, Drop)]
pub struct MemoryWire {
    alloc: Global,
    lines: Items<Bytes>,
    calls: Calls,
}

impl Model for MemoryWire {
    ghost use Rattle.mj_io.specs.Held.{HeldLines};

    ghost Value = { HeldLines };

    ghost view = { λ w. record { lines = w.lines; failing = w.calls.failing; calls = w.calls.made; faults = w.calls.faults } };
}

impl MemoryWire {
    /// No lines yet, and the numbers of the calls that are to fail. Takes no memory.
    pub fn make(alloc: Global, failing: Items<u64>) -> MemoryWire
        ensures { result ≡ record { lines = []; failing = failing; calls = 0; faults = 0 } }
    {
        MemoryWire {
            alloc,
            lines: Items::new(alloc),
            calls: Calls::new(failing),
        }
    }

    /// The lines that it tells. No call on the device.
    pub fn lines(&self) -> &Items<Bytes>
        ensures { result.now ≡ self.now.lines }
    {
        &self.lines
    }
}

/// Puts a copy of the line at the end. Without room for it the lines stay.
fn push_line(alloc: Global, lines: &mut Items<Bytes>, line: &[u8]) -> Result<(), Memory>
    ensures ok { OnOk result (lines.new ≡ lines.old ++ line.now ∷ []) }
    ensures err { OnErr result (lines.new ≡ lines.old) }
{
    lines.push(Bytes::from_slice(alloc, line)?)
}

impl Wire for MemoryWire {
    ghost use Rattle.std.specs.Prelude.{Some};

    ghost told = { λ w. Some w.lines };

    ghost faults = { λ w. w.faults };

    fn present(&mut self, line: &[u8]) -> Result<(), Failed>
        ensures ok { OnOk result (Some self.new.lines ≡ grown (Some self.old.lines) (line.now ∷ [])) }
        ensures err { OnErr result ((Some self.new.lines ≡ Some self.old.lines) ⊎ (Some self.new.lines ≡ grown (Some self.old.lines) (line.now ∷ []))) }
        ensures cause { HasCause (record {}) self.old.faults self.new.faults result }
        // It fails where it was told to, and else only where the line finds no room.
        ensures named { is_named self.old.failing self.old.calls ≡ true → IsErr result }
        ensures held { OnOk result (self.new ≡ presented self.old line.now) }
        ensures failed { OnErr result (self.new ≡ presented_nothing self.old) }
    {
        if self.calls.next_fails() {
            return Err(Failed);
        }
        match push_line(self.alloc, &mut self.lines, line) {
            Ok(()) => Ok(()),
            Err(_) => {
                self.calls.count_fault();
                Err(Failed)
            }
        }
    }
}
