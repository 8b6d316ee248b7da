ghost use Rattle.std.specs.Prelude.{◌≡◌, ℕ, ◌+◌, ◌*◌, ◌<◌, ◌≤◌, [], ◌∷◌, length, slice_get, IsOk, OnOk, OnErr, MatchOption};
ghost use Rattle.std.specs.List.{Contains};
ghost use Rattle.mj_ready.specs.Due.{is_before, inserted, IsAscending};
ghost use Rattle.mj_ready.specs.Steps.{IsDepth};

use crate::heap;
use crate::rows::Rows;
use crate::steps::Steps;
use mj_fields::Memory;
use std::alloc::Global;
use std::marker::{Brand, Model};
use std::sync::ledger::{Blank, Ledger};

/// Moments that are due, each with a key: a heap of distinct pairs, of 16 bytes each. Contracts see the pairs in order, the
/// one that is due first at the front, and how many more there is room for.
///
/// A moment is in milliseconds. Of two pairs the one that is due earlier comes first, and at the same moment the one with the
/// lesser key. A step is the reading of a row of the heap, the exchange of two rows, or a row put at its end or taken out there.
#[derive(Debug, Drop)]
pub struct DueQueue {
    rows: Rows,
}

impl Model for DueQueue {
    ghost use Rattle.std.specs.Prelude.{◌≡◌};
    ghost use Rattle.mj_ready.specs.Due.{Queue, is_before, IsAscending};
    ghost use Rattle.mj_ready.specs.Heap.{in_order, IsHeap};

    ghost Value = { Queue };

    ghost view = { λ q. record { pairs = in_order is_before q.rows.rows; spare = q.rows.spare } };

    ghost invariant = { λ q. IsHeap q.rows.rows × IsAscending is_before (in_order is_before q.rows.rows) };
}

impl DueQueue {
    /// No pairs. Takes no memory.
    pub fn new(alloc: Global) -> DueQueue
        ensures { result.pairs ≡ [] }
    {
        DueQueue {
            rows: Rows::new(alloc),
        }
    }

    /// Takes room for so many pairs more. Without memory for it the queue stays.
    pub fn reserve(&mut self, n: usize) -> Result<(), Memory>
        ensures pairs { self.new.pairs ≡ self.old.pairs }
        ensures kept { self.old.spare ≤ self.new.spare }
        ensures ok { OnOk result (n ≤ self.new.spare) }
        ensures enough { n ≤ self.old.spare → IsOk result }
        ensures err { OnErr result (self.new ≡ self.old) }
    {
        self.rows.reserve(n)
    }

    /// Puts in a pair that isn't there. Takes no memory.
    pub fn add(&mut self, due: u64, key: u64)
        requires room { 1 ≤ self.old.spare }
        requires absent { ¬ Contains self.old.pairs (due, key) }
        ensures pairs { self.new.pairs ≡ inserted is_before (due, key) self.old.pairs }
        ensures spare { self.old.spare ≤ self.new.spare + 1 }
    {
        add_from::<Brand>(self, due, key, Blank::new(1));
    }

    /// The first pair: that of the least moment, and of the least key at it. `None` exactly where there is none.
    pub fn least(&self) -> Option<(u64, u64)>
        ensures first { result ≡ slice_get self.now.pairs 0 }
        ensures ascending { IsAscending is_before self.now.pairs }
    {
        least_from::<Brand>(self, Blank::new(1))
    }

    /// Takes the first pair out; `None` exactly where there is none. Takes no memory, and gives the pair's room back.
    pub fn take_least(&mut self) -> Option<(u64, u64)>
        ensures first { MatchOption result
            ((self.old.pairs ≡ []) × (self.new ≡ self.old))
            (λ least. self.old.pairs ≡ least ∷ self.new.pairs) }
        ensures ascending { IsAscending is_before self.old.pairs }
        ensures spare { MatchOption result (self.new.spare ≡ self.old.spare) (λ _. self.new.spare ≡ self.old.spare + 1) }
    {
        take_least_from::<Brand>(self, Blank::new(1))
    }

    /// What `least` does, in one step at most.
    pub fn least_counted<L: Ledger>(&self, steps: &mut Steps<L>) -> Option<(u64, u64)>
        ensures first { result ≡ slice_get self.now.pairs 0 }
        ensures ascending { IsAscending is_before self.now.pairs }
        ensures cost { steps.new ≤ steps.old + 1 }
    {
        heap::first(&self.rows, steps)
    }

    /// What `add` does, in at most 1 + 2 k steps, where k is the greatest number with 2 ^ k <= n + 1, of n pairs before.
    pub fn add_counted<L: Ledger>(&mut self, due: u64, key: u64, steps: &mut Steps<L>)
        requires room { 1 ≤ self.old.spare }
        requires absent { ¬ Contains self.old.pairs (due, key) }
        ensures pairs { self.new.pairs ≡ inserted is_before (due, key) self.old.pairs }
        ensures spare { self.old.spare ≤ self.new.spare + 1 }
        ensures cost { (k : ℕ) → IsDepth (length self.old.pairs + 1) k → steps.new ≤ steps.old + (1 + 2 * k) }
    {
        heap::put(&mut self.rows, (due, key), steps);
    }

    /// What `take_least` does: with no pair in no step, and else in at most 3 + 3 k steps, where k is the greatest number with
    /// 2 ^ k <= n, of n pairs before.
    pub fn take_least_counted<L: Ledger>(&mut self, steps: &mut Steps<L>) -> Option<(u64, u64)>
        ensures first { MatchOption result
            ((self.old.pairs ≡ []) × (self.new ≡ self.old))
            (λ least. self.old.pairs ≡ least ∷ self.new.pairs) }
        ensures ascending { IsAscending is_before self.old.pairs }
        ensures spare { MatchOption result (self.new.spare ≡ self.old.spare) (λ _. self.new.spare ≡ self.old.spare + 1) }
        ensures none { self.old.pairs ≡ [] → steps.new ≡ steps.old }
        ensures cost { (k : ℕ) → IsDepth (length self.old.pairs) k → steps.new ≤ steps.old + (3 + 3 * k) }
    {
        heap::take(&mut self.rows, steps)
    }
}

// The same calls with a count of their own, which no one reads.

fn add_from<L: Ledger>(queue: &mut DueQueue, due: u64, key: u64, blank: Blank)
    requires name { blank.name ≡ L.name }
    requires parts { blank.parts ≡ L.parts }
    requires some { 0 < blank.parts }
    requires room { 1 ≤ queue.old.spare }
    requires absent { ¬ Contains queue.old.pairs (due, key) }
    ensures pairs { queue.new.pairs ≡ inserted is_before (due, key) queue.old.pairs }
    ensures spare { queue.old.spare ≤ queue.new.spare + 1 }
{
    queue.add_counted(due, key, &mut Steps::<L>::start(blank));
}

fn least_from<L: Ledger>(queue: &DueQueue, blank: Blank) -> Option<(u64, u64)>
    requires name { blank.name ≡ L.name }
    requires parts { blank.parts ≡ L.parts }
    requires some { 0 < blank.parts }
    ensures first { result ≡ slice_get queue.now.pairs 0 }
    ensures ascending { IsAscending is_before queue.now.pairs }
{
    queue.least_counted(&mut Steps::<L>::start(blank))
}

fn take_least_from<L: Ledger>(queue: &mut DueQueue, blank: Blank) -> Option<(u64, u64)>
    requires name { blank.name ≡ L.name }
    requires parts { blank.parts ≡ L.parts }
    requires some { 0 < blank.parts }
    ensures first { MatchOption result
        ((queue.old.pairs ≡ []) × (queue.new ≡ queue.old))
        (λ least. queue.old.pairs ≡ least ∷ queue.new.pairs) }
    ensures ascending { IsAscending is_before queue.old.pairs }
    ensures spare { MatchOption result (queue.new.spare ≡ queue.old.spare) (λ _. queue.new.spare ≡ queue.old.spare + 1) }
{
    queue.take_least_counted(&mut Steps::<L>::start(blank))
}
