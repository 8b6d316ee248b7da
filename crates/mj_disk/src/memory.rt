ghost use Rattle.std.specs.Prelude.{◌≡◌, ◌≤◌, ◌<◌, ◌+◌, ◌^◌, ◌↔◌, [], None, Some, length, take, drop, true, false, IfOk, OnOk, OnErr, IsErr, IsOk};
ghost use Rattle.mj_terms.specs.Causes.{HasCause};
ghost use Rattle.mj_fields.specs.Calls.{next};
ghost use Rattle.mj_disk.specs.declared.tape.DiskCall.TheVariants.{Write, Cut, Sync};
ghost use Rattle.mj_disk.specs.Held.{fails_next, went_on, failed_once};
ghost use Rattle.mj_disk.specs.Media.{IsImage, written, shortened, synced};
ghost use Rattle.mj_disk.specs.Moments.{Now, Changes, bytes_now};
ghost use Rattle.mj_disk.specs.Past.{then_call, moments_of, reads_itself};

use crate::tape::Tape;
use crate::{Disk, DiskFailed};
use mj_fields::{Bytes, Calls, Items, Memory};
use std::alloc::Global;
use std::marker::Model;

/// A disk in memory, which tells its bytes and keeps a record of its calls. The calls whose numbers are named
/// fail; they are counted from 1. After `stop_after` all later calls fail too, and so does a call that finds no
/// room. A call that fails does nothing.
#[derive(Debug, Drop)]
pub struct MemoryDisk {
    alloc: Global,
    tape: Tape,
    calls: Calls,
    left: Option<u64>,
}

impl Model for MemoryDisk {
    ghost use Rattle.mj_disk.specs.Held.{HeldDisk};

    ghost Value = { HeldDisk };

    ghost view = { λ d. record { past = d.tape; failing = d.calls.failing; left = d.left; calls = d.calls.made; faults = d.calls.faults } };
}

impl MemoryDisk {
    /// A disk with these bytes, all of them synced, and the numbers of the calls that are to fail.
    pub fn make(alloc: Global, bytes: Bytes, failing: Items<u64>) -> Result<MemoryDisk, Memory>
        ensures { IfOk result (λ d. d ≡ record { past = record { first = bytes; calls = [] }; failing = failing; left = None; calls = 0; faults = 0 }) }
    {
        Ok(MemoryDisk {
            alloc,
            tape: Tape::new(alloc, bytes.into_vec())?,
            calls: Calls::new(failing),
            left: None,
        })
    }

    /// The bytes as they read. No call on the device.
    pub fn bytes(&self) -> &[u8]
        ensures { bytes_now (moments_of self.now.past) ≡ Some result.now }
    {
        self.tape.bytes()
    }

    /// The next `calls` calls go on as before, and every later one fails.
    pub fn stop_after(&mut self, calls: u64)
        ensures { self.new ≡ record self.old { left = Some calls } }
    {
        self.left = Some(calls);
    }

    /// The image of this number that a crash now may leave, as a disk at rest without failing calls. Number 0 gives
    /// the bytes of the last sync, or those that the disk was made with; number 1 the bytes as they read. Each
    /// other number decides by its draws the length, and then in order each byte that the disk doesn't leave as it
    /// is: as it was synced, as it reads, or drawn.
    pub fn image(&self, number: u32) -> Result<MemoryDisk, Memory>
        ensures image { IfOk result (λ d. Now (moments_of self.now.past) (λ m. IsImage m d.past.first)) }
        ensures at_rest { IfOk result (λ d. d ≡ record { past = record { first = d.past.first; calls = [] }; failing = []; left = None; calls = 0; faults = 0 }) }
    {
        Ok(MemoryDisk {
            alloc: self.alloc,
            tape: self.tape.image(number)?,
            calls: Calls::new(Items::new(self.alloc)),
            left: None,
        })
    }

    /// Counts one more call, and says whether it fails.
    fn next_fails(&mut self) -> bool
        ensures fails { result ≡ fails_next self.old }
        ensures failed { result ≡ true → self.new ≡ failed_once self.old }
        ensures goes_on { result ≡ false → self.new ≡ went_on self.old self.old.past }
        ensures later { self.old.faults ≤ self.new.faults }
    {
        let stopped = self.left == Some(0);
        self.left = self.left.map(|n| n.saturating_sub(1));
        let named = self.calls.next_fails();
        if stopped && !named {
            self.calls.count_fault();
        }
        stopped || named
    }

    /// Counts want of room as a fault.
    fn judge(&mut self, outcome: Result<(), Memory>) -> Result<(), DiskFailed>
        ensures done { OnOk result (self.new ≡ self.old) }
        ensures failed { OnErr result (self.new ≡ record self.old { faults = next self.old.faults }) }
        ensures same { IsOk result ↔ IsOk outcome }
        ensures later { self.old.faults ≤ self.new.faults }
    {
        if outcome.is_err() {
            self.calls.count_fault();
            return Err(DiskFailed);
        }
        Ok(())
    }
}

/// Fills the piece with as many of the bytes as it holds, and says how many.
fn fill(bytes: &[u8], into: &mut [u8]) -> usize
    ensures bound { result ≤ length into.old }
    ensures bytes { take result into.new ≡ take (length into.old) bytes.now }
    ensures rest { drop result into.new ≡ drop result into.old }
{
    let count = bytes.len().min(into.len());
    into[..count].copy_from_slice(&bytes[..count]);
    count
}

impl Disk for MemoryDisk {
    ghost moments = { λ d. moments_of d.past };

    ghost faults = { λ d. d.faults };

    ghost reads = { λ d. reads_itself d.past };

    fn length(&mut self) -> Result<u64, DiskFailed>
        ensures length { IfOk result (λ n. Now (moments_of self.old.past) (λ m. n ≡ length m.bytes)) }
        ensures bound { IfOk result (λ n. n < 2 ^ 63) }
        ensures same { moments_of self.new.past ≡ moments_of self.old.past }
        ensures cause { HasCause (record {}) self.old.faults self.new.faults result }
        // A call that needs no room fails where it was told to, and nowhere else.
        ensures fails { IsErr result ↔ (fails_next self.old ≡ true) }
        ensures done { OnOk result (self.new ≡ went_on self.old self.old.past) }
        ensures failed { OnErr result (self.new ≡ failed_once self.old) }
    {
        if self.next_fails() {
            return Err(DiskFailed);
        }
        Ok(self.tape.bytes().len() as u64)
    }

    fn read(&mut self, at: u64, into: &mut [u8]) -> Result<usize, DiskFailed>
        requires { Now (moments_of self.old.past) (λ m. at ≤ length m.bytes) }
        ensures bound { IfOk result (λ n. n ≤ length into.old) }
        ensures bytes { IfOk result (λ n. Now (moments_of self.old.past) (λ m. take n into.new ≡ take (length into.old) (drop at m.bytes))) }
        ensures rest { IfOk result (λ n. Now (moments_of self.old.past) (λ _. drop n into.new ≡ drop n into.old)) }
        ensures same { moments_of self.new.past ≡ moments_of self.old.past }
        ensures cause { HasCause (record {}) self.old.faults self.new.faults result }
        ensures fails { IsErr result ↔ (fails_next self.old ≡ true) }
        ensures done { OnOk result (self.new ≡ went_on self.old self.old.past) }
        ensures failed { OnErr result (self.new ≡ failed_once self.old) }
    {
        if self.next_fails() {
            return Err(DiskFailed);
        }
        Ok(fill(&self.tape.bytes()[at as usize..], into))
    }

    fn write_at(&mut self, at: u64, bytes: &[u8]) -> Result<(), DiskFailed>
        requires within { Now (moments_of self.old.past) (λ m. at ≤ length m.bytes) }
        requires bound { at + length bytes.now < 2 ^ 63 }
        ensures change { Changes (written at bytes.now) (written at bytes.now) (moments_of self.old.past) (moments_of self.new.past) result }
        ensures cause { HasCause (record {}) self.old.faults self.new.faults result }
        // It fails where it was told to, and else only where its record finds no room.
        ensures named { fails_next self.old ≡ true → IsErr result }
        ensures done { OnOk result (self.new ≡ went_on self.old (then_call self.old.past (Write at bytes.now))) }
        ensures failed { OnErr result (self.new ≡ failed_once self.old) }
    {
        if self.next_fails() {
            return Err(DiskFailed);
        }
        let outcome = self.tape.write(at, bytes);
        self.judge(outcome)
    }

    fn cut(&mut self, size: u64) -> Result<(), DiskFailed>
        requires { Now (moments_of self.old.past) (λ m. size ≤ length m.bytes) }
        ensures change { Changes (shortened size) (shortened size) (moments_of self.old.past) (moments_of self.new.past) result }
        ensures cause { HasCause (record {}) self.old.faults self.new.faults result }
        ensures named { fails_next self.old ≡ true → IsErr result }
        ensures done { OnOk result (self.new ≡ went_on self.old (then_call self.old.past (Cut size))) }
        ensures failed { OnErr result (self.new ≡ failed_once self.old) }
    {
        if self.next_fails() {
            return Err(DiskFailed);
        }
        let outcome = self.tape.cut(size);
        self.judge(outcome)
    }

    fn sync(&mut self) -> Result<(), DiskFailed>
        ensures change { Changes synced (λ m. m) (moments_of self.old.past) (moments_of self.new.past) result }
        ensures cause { HasCause (record {}) self.old.faults self.new.faults result }
        ensures named { fails_next self.old ≡ true → IsErr result }
        ensures done { OnOk result (self.new ≡ went_on self.old (then_call self.old.past Sync)) }
        ensures failed { OnErr result (self.new ≡ failed_once self.old) }
    {
        if self.next_fails() {
            return Err(DiskFailed);
        }
        let outcome = self.tape.sync();
        self.judge(outcome)
    }

    fn faults(&self) -> u64 {
        self.calls.faults
    }
}
