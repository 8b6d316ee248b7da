ghost use Rattle.std.specs.Prelude.{◌≡◌, ◌+◌, ◌-◌, ◌<◌, ◌≤◌, ◌^◌, ◌++◌, ◌∷◌, ◌⊎◌, [], ℕ, List, Option, Some, None, length, take, drop, get_or, vec_capacity, IfOk, IfErr, OnOk, OnErr, IsErrOf};
ghost use Rattle.mj_terms.specs.Causes.{Rose};
ghost use Rattle.mj_disk.specs.Moments.{Now, LeavesOnly, bytes_now};
ghost use Rattle.mj_log.specs.Journal.{payloads};
ghost use Rattle.mj_log.specs.FrameLaws.{AllShort, chain};
ghost use Rattle.mj_log.specs.Log.{ReadsAs, ReadsAsAt, WithOrWithout, texts};
ghost use Rattle.mj_log.specs.Places.{gates_of};
ghost use Rattle.mj_log.specs.View.{LogView, told, Has, size_of, IsPrepared, IsLog, IsCounted, spread, need_of, Refuses, Keeps};

use crate::frames::{extend_places, fill_frame, gates_of, need_of, open_frames};
use crate::gate::put_behind_gate;
use crate::load::load;
use crate::walk::fault_of;
use crate::{LogFault, LogRefused};
use mj_disk::Disk;
use mj_fields::{Bytes, Memory};
use std::alloc::Global;
use std::marker::Model;
use std::mem;

/// A list of payloads on a disk. It keeps the place of each payload's gate and that of the closing one, no payload, the
/// greatest length that the file may reach, and, once a device call has failed in an addition, the disk's count of
/// faults then. Contracts see it as those, with the room that the next append has.
#[derive(Drop)]
pub struct Log<D: Disk> {
    alloc: Global,
    disk: D,
    places: Vec<u64>,
    end: u64,
    limit: u64,
    stop: Option<u64>,
    /// Room for the frame of the next append.
    frame: Vec<u8>,
}

impl<D: Disk> Model for Log<D> {
    ghost Value = { LogView D };

    ghost view = { λ l. record { disk = l.disk; places = l.places.items; end = l.end; limit = l.limit; stop = l.stop; room = vec_capacity l.frame; slots = vec_capacity l.places } };

    ghost invariant = { λ l. IsLog (D.moments l.disk) l.places.items l.end l.limit l.stop };
}

impl<D: Disk> Log<D> {
    /// Puts frames behind the end, opens their gate, and keeps the places of their gates.
    fn put(&mut self, tail: &[u8], gates: &[u64]) -> Result<u64, LogFault>
        requires open { self.old.stop ≡ None }
        requires chain { (q : List ℕ) × (qs : List (List ℕ)) × (tail.now ≡ chain q qs) × AllShort (q ∷ qs) × (gates.now ≡ gates_of self.old.end (q ∷ qs)) }
        requires room { self.old.end + 1 + length tail.now ≤ self.old.limit }
        requires slots { length self.old.places + length gates.now ≤ self.old.slots }
        ensures any_moment { (ps : List (List ℕ)) (q : List ℕ) (qs : List (List ℕ)) → tail.now ≡ chain q qs → AllShort (q ∷ qs)
            → Has D.moments self.old ps → LeavesOnly (D.moments self.old.disk) (D.moments self.new.disk) (WithOrWithout ps (q ∷ qs)) }
        ensures added { (ps : List (List ℕ)) (q : List ℕ) (qs : List (List ℕ)) → tail.now ≡ chain q qs → AllShort (q ∷ qs) → gates.now ≡ gates_of self.old.end (q ∷ qs)
            → Has D.moments self.old ps → OnOk result (Has D.moments self.new (ps ++ q ∷ qs)) }
        ensures number { IfOk result (λ n. n ≡ length self.old.places) }
        ensures done { OnOk result (self.new ≡ record self.old { disk = self.new.disk; places = self.old.places ++ gates.now; end = self.old.end + length tail.now; slots = self.new.slots }) }
        ensures fault { IfErr result (λ e. e ≡ LogFault.DiskFault (D.faults self.new.disk)) }
        ensures stops { OnErr result (self.new ≡ record self.old { disk = self.new.disk; stop = Some (D.faults self.new.disk) }) }
        ensures tells { OnErr result (told D.moments self.new ≡ told D.moments self.old) }
        ensures cause { IsCounted (D.faults self.old.disk) (D.faults self.new.disk) result }
    {
        match put_behind_gate(&mut self.disk, self.end, tail) {
            Ok(()) => {
                let number = self.places.len() as u64;
                extend_places(&mut self.places, gates);
                self.end += tail.len() as u64;
                Ok(number)
            }
            Err(_) => {
                let faults = self.disk.faults();
                self.stop = Some(faults);
                Err(LogFault::DiskFault { faults })
            }
        }
    }

    /// Adds payloads whose frames pass no limit.
    fn put_all(&mut self, payloads: &[Vec<u8>]) -> Result<u64, LogFault>
        requires open { self.old.stop ≡ None }
        requires some { 0 < length payloads.now }
        requires short { AllShort (texts payloads.now) }
        requires room { self.old.end + 1 + spread (texts payloads.now) ≤ self.old.limit }
        ensures added { (ps : List (List ℕ)) → Has D.moments self.old ps → OnOk result (Has D.moments self.new (ps ++ texts payloads.now)) }
        ensures any_moment { (ps : List (List ℕ)) → Has D.moments self.old ps → LeavesOnly (D.moments self.old.disk) (D.moments self.new.disk) (WithOrWithout ps (texts payloads.now)) }
        ensures number { IfOk result (λ n. n ≡ length self.old.places) }
        ensures done { OnOk result (self.new ≡ record self.old { disk = self.new.disk; places = self.old.places ++ gates_of self.old.end (texts payloads.now); end = self.old.end + spread (texts payloads.now); room = self.new.room; slots = self.new.slots }) }
        ensures fault { IfErr result (λ e. (e ≡ LogFault.Memory) ⊎ (e ≡ LogFault.DiskFault (D.faults self.new.disk))) }
        ensures same { IsErrOf result LogFault.Memory → self.new ≡ self.old }
        ensures stops { (n : ℕ) → IsErrOf result (LogFault.DiskFault n) → self.new ≡ record self.old { disk = self.new.disk; stop = Some n; room = self.new.room; slots = self.new.slots } }
        ensures tells { OnErr result (told D.moments self.new ≡ told D.moments self.old) }
        ensures cause { IsCounted (D.faults self.old.disk) (D.faults self.new.disk) result }
    {
        let Ok(all) = open_frames(self.alloc, payloads) else {
            return Err(LogFault::Memory);
        };
        let Ok(gates) = gates_of(self.alloc, self.end, payloads) else {
            return Err(LogFault::Memory);
        };
        if self.places.reserve(gates.len()).is_err() {
            return Err(LogFault::Memory);
        }
        self.put(&all[1..], &gates)
    }

    /// The place of the gate behind the payload of this number.
    fn next_gate(&self, number: u64) -> u64
        requires { number < length self.now.places }
        ensures { result ≡ get_or self.now.places (number + 1) self.now.end }
    {
        match self.places.get(number as usize + 1) {
            Some(&gate) => gate,
            None => self.end,
        }
    }
}

impl<D: Disk + Drop> Log<D> {
    /// Opens a disk that a crash may have left, and may itself crash: cuts what stands behind the closing gate, and
    /// makes a file of at most nine bytes anew. Reads the gates and the lengths behind them, and no payload. The limit
    /// is the greatest length that the file may reach.
    pub fn reopen(alloc: Global, disk: D, limit: u64) -> Result<Log<D>, LogRefused<D>>
        requires { limit < 2 ^ 63 }
        // It has what the disk as it reads says, and a crash now leaves that.
        ensures opened { IfOk result (λ log. (bytes : List ℕ) → bytes_now (D.moments disk) ≡ Some bytes → (ps : List (List ℕ)) × ReadsAs ps bytes × Has D.moments log ps) }
        // A crash at any moment of the call leaves what reads as an image before it does.
        ensures any_moment { IfOk result (λ log. LeavesOnly (D.moments disk) (D.moments log.disk) (ReadsAsAt (D.moments disk))) }
        ensures any_moment_refused { IfErr result (λ r. LeavesOnly (D.moments disk) (D.moments r.disk) (ReadsAsAt (D.moments disk))) }
        // NotAJournal and Damaged come exactly where the file reads so, and leave it reading the same bytes.
        ensures fault { IfErr result (λ r. Now (D.moments disk) (λ m. Refuses r.fault (payloads m.bytes))) }
        ensures kept { IfErr result (λ r. Keeps r.fault (D.moments disk) (D.moments r.disk)) }
        ensures limit { IfOk result (λ log. (log.limit ≡ limit) × (log.stop ≡ None)) }
        ensures cause { IfErr result (λ r. (n : ℕ) → r.fault ≡ LogFault.DiskFault n → (n ≡ D.faults r.disk) × Rose (D.faults disk) (D.faults r.disk)) }
        ensures later { IfOk result (λ log. D.faults disk ≤ D.faults log.disk) }
        ensures later_refused { IfErr result (λ r. D.faults disk ≤ D.faults r.disk) }
    {
        let mut disk = disk;
        match load(alloc, &mut disk) {
            Ok(places) => Ok(Log {
                alloc,
                disk,
                places: places.gates,
                end: places.end,
                limit,
                stop: None,
                frame: Vec::new(alloc),
            }),
            Err(fault) => Err(LogRefused { disk, fault }),
        }
    }

    /// Finds room for the append of a payload of this length, which then takes no memory.
    pub fn prepare(&mut self, len: usize) -> Result<(), Memory>
        requires { len ≤ 134217728 }
        ensures prepared { OnOk result (IsPrepared self.new len) }
        ensures same { self.new ≡ record self.old { room = self.new.room; slots = self.new.slots } }
        ensures no_less { (self.old.room ≤ self.new.room) × (self.old.slots ≤ self.new.slots) }
    {
        self.frame.clear();
        self.frame.reserve(len + 5)?;
        self.places.reserve(1)?;
        Ok(())
    }

    /// Adds a payload at the end, and answers its number. Takes no memory.
    pub fn append(&mut self, payload: &[u8]) -> Result<u64, LogFault>
        requires short { length payload.now ≤ 134217728 }
        requires prepared { IsPrepared self.old (length payload.now) }
        ensures added { (ps : List (List ℕ)) → Has D.moments self.old ps → OnOk result (Has D.moments self.new (ps ++ payload.now ∷ [])) }
        // A crash at any moment of the call leaves the payloads from before it, with the new one or without.
        ensures any_moment { (ps : List (List ℕ)) → Has D.moments self.old ps → LeavesOnly (D.moments self.old.disk) (D.moments self.new.disk) (WithOrWithout ps (payload.now ∷ [])) }
        ensures number { IfOk result (λ n. n ≡ length self.old.places) }
        ensures done { OnOk result (self.new ≡ record self.old { disk = self.new.disk; places = self.old.places ++ self.old.end ∷ []; end = self.old.end + 5 + length payload.now; room = self.new.room; slots = self.new.slots }) }
        // Full comes exactly where the frame would pass the limit, and the log isn't stopped.
        ensures full { self.old.stop ≡ None → self.old.limit < self.old.end + 6 + length payload.now → IsErrOf result (LogFault.Full self.old.end (self.old.end + 6 + length payload.now)) }
        ensures full_only { (e n : ℕ) → IsErrOf result (LogFault.Full e n) → (self.old.stop ≡ None) × (self.old.limit < self.old.end + 6 + length payload.now) }
        // A disk fault stops the log, which refuses every later append with this count. No refusal changes what it tells.
        ensures stops { (n : ℕ) → IsErrOf result (LogFault.DiskFault n) → self.new ≡ record self.old { disk = self.new.disk; stop = Some n; room = self.new.room; slots = self.new.slots } }
        ensures tells { OnErr result (told D.moments self.new ≡ told D.moments self.old) }
        ensures stopped { (n : ℕ) → self.old.stop ≡ Some n → IsErrOf result (LogFault.Stopped n) }
        ensures stopped_only { (n : ℕ) → IsErrOf result (LogFault.Stopped n) → self.old.stop ≡ Some n }
        ensures only { IsErrOf result LogFault.Memory → ⊥ }
        ensures refused { OnErr result (self.new.stop ≡ self.old.stop → self.new ≡ self.old) }
        ensures cause { IsCounted (D.faults self.old.disk) (D.faults self.new.disk) result }
    {
        if let Some(faults) = self.stop {
            return Err(LogFault::Stopped { faults });
        }
        let need = self.end + 6 + payload.len() as u64;
        if need > self.limit {
            return Err(LogFault::Full {
                end: self.end,
                need,
            });
        }
        let mut frame = mem::replace(&mut self.frame, Vec::new(self.alloc));
        fill_frame(&mut frame, payload);
        let outcome = self.put(&frame, &[self.end]);
        self.frame = frame;
        outcome
    }

    /// Adds payloads at the end, all of them or none, by the four device calls of one, and answers the number of
    /// the first. Takes memory, all of it before the first of those calls.
    pub fn append_all(&mut self, payloads: &[Vec<u8>]) -> Result<u64, LogFault>
        requires { AllShort (texts payloads.now) }
        ensures added { (ps : List (List ℕ)) → Has D.moments self.old ps → OnOk result (Has D.moments self.new (ps ++ texts payloads.now)) }
        // A crash at any moment of the call leaves the payloads from before it, with all the new ones or without.
        ensures any_moment { (ps : List (List ℕ)) → Has D.moments self.old ps → LeavesOnly (D.moments self.old.disk) (D.moments self.new.disk) (WithOrWithout ps (texts payloads.now)) }
        ensures number { IfOk result (λ n. n ≡ length self.old.places) }
        ensures done { OnOk result (self.new ≡ record self.old { disk = self.new.disk; places = self.old.places ++ gates_of self.old.end (texts payloads.now); end = self.old.end + spread (texts payloads.now); room = self.new.room; slots = self.new.slots }) }
        // Full comes exactly where the frames would pass the limit, and the log isn't stopped.
        ensures full { self.old.stop ≡ None → 0 < length payloads.now → self.old.limit < need_of self.old.end (texts payloads.now) → IsErrOf result (LogFault.Full self.old.end (need_of self.old.end (texts payloads.now))) }
        ensures full_only { (e n : ℕ) → IsErrOf result (LogFault.Full e n) → (self.old.stop ≡ None) × (0 < length payloads.now) × (self.old.limit < need_of self.old.end (texts payloads.now)) }
        // A disk fault stops the log, which refuses every later append with this count. No refusal changes what it tells.
        ensures stops { (n : ℕ) → IsErrOf result (LogFault.DiskFault n) → self.new ≡ record self.old { disk = self.new.disk; stop = Some n; room = self.new.room; slots = self.new.slots } }
        ensures tells { OnErr result (told D.moments self.new ≡ told D.moments self.old) }
        ensures stopped { (n : ℕ) → self.old.stop ≡ Some n → IsErrOf result (LogFault.Stopped n) }
        ensures stopped_only { (n : ℕ) → IsErrOf result (LogFault.Stopped n) → self.old.stop ≡ Some n }
        ensures refused { OnErr result (self.new.stop ≡ self.old.stop → self.new ≡ self.old) }
        ensures cause { IsCounted (D.faults self.old.disk) (D.faults self.new.disk) result }
    {
        if let Some(faults) = self.stop {
            return Err(LogFault::Stopped { faults });
        }
        if payloads.is_empty() {
            return Ok(self.places.len() as u64);
        }
        let need = need_of(self.end, payloads);
        if need > self.limit {
            return Err(LogFault::Full {
                end: self.end,
                need,
            });
        }
        self.put_all(payloads)
    }

    /// The number of payloads.
    pub fn count(&self) -> u64
        ensures places { result ≡ length self.now.places }
        ensures payloads { (ps : List (List ℕ)) → told D.moments self.now ≡ Some ps → result ≡ length ps }
    {
        self.places.len() as u64
    }

    /// The length of the payload of this number. Reads nothing.
    pub fn payload_len(&self, number: u64) -> u64
        requires { number < length self.now.places }
        ensures size { result ≡ size_of self.now number }
        ensures payload { (ps : List (List ℕ)) → told D.moments self.now ≡ Some ps → result ≡ length (get_or ps number []) }
    {
        let gate = self.places[number as usize];
        self.next_gate(number) - (gate + 5)
    }

    /// Fills the slice with a part of the payload of this number, from a place in it on. A fault doesn't stop the log.
    pub fn part(&mut self, number: u64, from: u64, into: &mut [u8]) -> Result<(), LogFault>
        requires number { number < length self.old.places }
        requires within { from + length into.old ≤ size_of self.old number }
        ensures bytes { (ps : List (List ℕ)) → told D.moments self.old ≡ Some ps → OnOk result (into.new ≡ take (length into.old) (drop from (get_or ps number []))) }
        ensures size { length into.new ≡ length into.old }
        ensures only { IfErr result (λ e. e ≡ LogFault.DiskFault (D.faults self.new.disk)) }
        ensures same { self.new ≡ record self.old { disk = self.new.disk } }
        ensures moments { D.moments self.new.disk ≡ D.moments self.old.disk }
        ensures cause { IsCounted (D.faults self.old.disk) (D.faults self.new.disk) result }
    {
        let gate = self.places[number as usize];
        match self.disk.read(gate + 5 + from, into) {
            Ok(_) => Ok(()),
            Err(_) => Err(fault_of(&self.disk)),
        }
    }

    /// The payload of this number. A fault doesn't stop the log.
    pub fn payload(&mut self, number: u64) -> Result<Bytes, LogFault>
        requires { number < length self.old.places }
        ensures bytes { (ps : List (List ℕ)) → told D.moments self.old ≡ Some ps → IfOk result (λ b. b ≡ get_or ps number []) }
        ensures only { IfErr result (λ e. (e ≡ LogFault.DiskFault (D.faults self.new.disk)) ⊎ (e ≡ LogFault.Memory)) }
        ensures same { self.new ≡ record self.old { disk = self.new.disk } }
        ensures moments { D.moments self.new.disk ≡ D.moments self.old.disk }
        ensures cause { IsCounted (D.faults self.old.disk) (D.faults self.new.disk) result }
    {
        let size = self.payload_len(number);
        let Ok(mut bytes) = vec![in self.alloc; 0u8; size as usize] else {
            return Err(LogFault::Memory);
        };
        self.part(number, 0, &mut bytes)?;
        Ok(Bytes::from_vec(bytes))
    }

    /// The disk's count of faults.
    pub fn faults(&self) -> u64
        ensures { result ≡ D.faults self.now.disk }
    {
        self.disk.faults()
    }

    /// The disk, as it is.
    pub fn into_disk(self) -> D
        ensures { result ≡ self.disk }
    {
        self.disk
    }
}
