//! The list of delays after failed attempts.
ghost use Rattle.std.specs.Prelude.{◌≡◌, ◌+◌, ◌-◌, ◌≤◌, ◌<◌, ◌^◌, min, [], ◌∷◌, ◌++◌, true, length, replicate, vec_len, slice_get, ◌↔◌, IsNone, IfOk, IfSome, OnOk};
ghost use Rattle.std.specs.List.{list_all, slice_split};
ghost use Rattle.std.specs.Option.{option_copied};
ghost use Rattle.mj_delays.specs.declared.schedules.ScheduleFault.TheVariants.{Memory};
ghost use Rattle.mj_delays.specs.Limits.{IsSchedule, is_short};
ghost use Rattle.mj_delays.specs.Delays.{entry_of};
ghost use Rattle.mj_delays.specs.Schedule.{Gives, checked, extended, is_comma, schedule_of};
ghost use Rattle.mj_delays.specs.Draft.{completed, left, parts_of};

use crate::delays::{Entry, read_entry};
use crate::texts::place_of;
use std::alloc::{AllocError, Global};
use std::marker::Model;
use thiserror::Error;

/// The longest delay, in milliseconds: seven days.
const LONGEST_DELAY: u64 = 604_800_000;

/// The most delays that a schedule may have.
const MOST_DELAYS: u64 = 100;

/// Without a text: one attempt after six hours.
const DEFAULT_ENTRY: Entry = Entry {
    attempts: 1,
    delay: 21_600_000,
};

/// Why a delay text gives no schedule. Places of entries count from 1.
#[derive(Clone, Copy, Debug, PartialEq, Eq, Error)]
pub enum ScheduleFault {
    /// The entry at this place isn't of the form `attempts * delay unit`, as an empty one isn't.
    #[error("entry {place} is no delay")]
    BadDelay { place: u64 },
    /// The entry at this place waits longer than seven days.
    #[error("the delay of entry {place} is over seven days")]
    TooLong { place: u64 },
    /// The list has more than 100 delays. Faults of entries come before this one.
    #[error("there are more than 100 delays")]
    TooMany,
    /// Memory ran out.
    #[error("out of memory")]
    Memory,
}

impl From<AllocError> for ScheduleFault {
    ghost from_gives = { λ _ fault. fault ≡ Memory };

    fn from(_error: AllocError) -> ScheduleFault {
        ScheduleFault::Memory
    }
}

/// The delays between the attempts of a delivery, in milliseconds: 1 to 100, each of at most seven
/// days.
#[derive(Debug, Drop)]
pub struct Schedule {
    delays: Vec<u64>,
}

impl Model for Schedule {
    ghost use Rattle.std.specs.Prelude.{List, ℕ};
    ghost use Rattle.mj_delays.specs.Limits.{IsSchedule};

    ghost Value = { List ℕ };

    ghost view = { λ s. s.delays.items };

    ghost invariant = { λ s. IsSchedule s.delays.items };
}

impl Schedule {
    /// The schedule of a delay text for so many retries.
    ///
    /// A text has entries between commas, each of the form `attempts * delay unit`. `attempts *` and
    /// the unit may be left out, and mean one attempt and milliseconds; blanks round each part are
    /// dropped. Attempts and delay have 1 to 9 decimal digits, and there is at least one attempt.
    /// Without a text there is the one entry of 21,600,000 ms. Each delay is listed as often as its
    /// attempts, and the last one is repeated until there are `max_retries` delays.
    ///
    /// Entries are checked from the left, and their places count from 1: `BadDelay` is an entry of
    /// another form, `TooLong` one of over 604,800,000 ms. `TooMany` comes last, and is a list of
    /// over 100 delays.
    pub fn read(
        alloc: Global,
        text: Option<&[u8]>,
        max_retries: u32,
    ) -> Result<Schedule, ScheduleFault>
        // The schedule, or the first fault, by what the text says alone.
        ensures exact { Gives result (schedule_of (option_copied text.entry) max_retries) }
        ensures limits { IfOk result IsSchedule }
    {
        match text {
            None => default_schedule(alloc, max_retries),
            Some(text) => read_text(alloc, text, max_retries),
        }
    }

    /// The delay after the attempt of this number, counted from 1, in milliseconds; None where the
    /// list has no further delay.
    pub fn delay_after(&self, attempt: u32) -> Option<u64>
        requires { 1 ≤ attempt }
        ensures member { result ≡ slice_get self.now (attempt - 1) }
        ensures passed { IsNone result ↔ (length self.now < attempt) }
        ensures short { IfSome result (λ delay. delay ≤ 604_800_000) }
    {
        self.delays.get(attempt as usize - 1).copied()
    }

    /// How many delays there are, from 1 to 100.
    pub fn len(&self) -> usize
        ensures value { result ≡ length self.now }
        ensures limits { IsSchedule self.now }
    {
        self.delays.len()
    }

    /// An equal schedule.
    pub fn copy(&self, alloc: Global) -> Result<Schedule, AllocError>
        ensures { IfOk result (λ copy. copy ≡ self.now) }
    {
        let delays = self.delays.to_vec(alloc)?;
        Ok(Schedule { delays })
    }
}

/// The delays that the entries so far write out. More than 100 attempts are counted, up to the last value of the count,
/// and not kept.
#[derive(Drop)]
struct Draft {
    delays: Vec<u64>,
    attempts: u64,
    ghost kept: { attempts ≤ 100 → vec_len delays ≡ attempts },
    ghost short: { list_all is_short delays.items ≡ true },
}

impl Draft {
    /// The draft before the first entry.
    fn new(alloc: Global) -> Draft
        ensures attempts { result.attempts ≡ 0 }
        ensures delays { result.delays.items ≡ [] }
    {
        Draft {
            delays: Vec::new(alloc),
            attempts: 0,
        }
    }

    /// Adds an entry.
    #[tactic(auto, using(crate::proofs::Short::short_resized))]
    fn add(&mut self, entry: Entry) -> Result<(), AllocError>
        requires short { entry.delay ≤ 604_800_000 }
        ensures attempts { OnOk result (self.new.attempts ≡ min (self.old.attempts + entry.attempts) (2 ^ 64 - 1)) }
        ensures delays { OnOk result (self.new.attempts ≤ 100
            → self.new.delays.items ≡ self.old.delays.items ++ replicate entry.attempts entry.delay) }
    {
        let attempts = self.attempts.saturating_add(u64::from(entry.attempts));
        if attempts <= MOST_DELAYS {
            self.delays.resize(attempts as usize, entry.delay)?;
        }
        self.attempts = attempts;
        Ok(())
    }

    /// The schedule of the entries, with the last delay repeated for as many retries.
    #[tactic(auto, unfolding(crate::specs::Draft::completed))]
    fn finish(self, max_retries: u32) -> Result<Schedule, ScheduleFault>
        requires { 1 ≤ self.attempts }
        ensures { Gives result (completed max_retries self.attempts self.delays.items []) }
    {
        let Draft { delays, attempts } = self;
        let count = attempts.max(u64::from(max_retries));
        if count > MOST_DELAYS {
            return Err(ScheduleFault::TooMany);
        }
        let delays = extended(delays, count as usize)?;
        Ok(Schedule { delays })
    }
}

/// The delays, with the last one repeated up to this many.
#[tactic(auto, using(crate::proofs::Short::short_resized, crate::proofs::Short::short_at))]
fn extended(mut delays: Vec<u64>, count: usize) -> Result<Vec<u64>, AllocError>
    requires some { 1 ≤ vec_len delays }
    requires longer { vec_len delays ≤ count }
    requires few { count ≤ 100 }
    requires short { list_all is_short delays.items ≡ true }
    ensures value { IfOk result (λ v. v.items ≡ extended count delays.items) }
    ensures schedule { IfOk result (λ v. IsSchedule v.items) }
{
    let last = delays[delays.len() - 1];
    delays.resize(count, last)?;
    Ok(delays)
}

/// The part of a text before its first comma, and what stands behind that comma.
#[tactic(auto, using(crate::proofs::Parts::uncut, crate::proofs::Parts::cut_at))]
fn next_part(text: &[u8]) -> (&[u8], Option<&[u8]>)
    ensures parts { slice_split is_comma text.now ≡ result.0.now ∷ parts_of (option_copied result.1) }
    ensures shorter { left (option_copied result.1) ≤ length text.now }
{
    match place_of(text, b',') {
        None => (text, None),
        Some(comma) => (&text[..comma], Some(&text[comma + 1..])),
    }
}

/// The entry at a place.
fn entry_at(place: u64, text: &[u8]) -> Result<Entry, ScheduleFault>
    ensures value { result ≡ checked place (entry_of text.now) }
    ensures some { IfOk result (λ entry. 1 ≤ entry.attempts) }
    ensures small { IfOk result (λ entry. entry.attempts < 1_000_000_000) }
    ensures short { IfOk result (λ entry. entry.delay ≤ 604_800_000) }
{
    match read_entry(text) {
        None => Err(ScheduleFault::BadDelay { place }),
        Some(entry) => {
            if entry.delay > LONGEST_DELAY {
                return Err(ScheduleFault::TooLong { place });
            }
            Ok(entry)
        }
    }
}

/// The schedule where there is no text.
fn default_schedule(alloc: Global, max_retries: u32) -> Result<Schedule, ScheduleFault>
    ensures { Gives result (schedule_of None max_retries) }
{
    let mut draft = Draft::new(alloc);
    draft.add(DEFAULT_ENTRY)?;
    draft.finish(max_retries)
}

/// The schedule of a text.
fn read_text(alloc: Global, text: &[u8], max_retries: u32) -> Result<Schedule, ScheduleFault>
    ensures { Gives result (schedule_of (Some text.now) max_retries) }
{
    let mut draft = Draft::new(alloc);
    let mut place = 1;
    let mut rest = Some(text);
    while let Some(text) = rest {
        let (part, after) = next_part(text);
        let entry = entry_at(place, part)?;
        draft.add(entry)?;
        place += 1;
        rest = after;
    }
    draft.finish(max_retries)
}
