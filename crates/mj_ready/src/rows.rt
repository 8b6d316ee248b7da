//! The store of a heap: each reading of a row, each exchange of two rows, each push and each pop is a step.
ghost use Rattle.std.specs.Prelude.{◌≡◌, ◌+◌, ◌<◌, ◌≤◌, [], ◌∷◌, ◌++◌, length, swap, IsOk, OnOk, OnErr};
ghost use Rattle.mj_ready.specs.Heap.{row_at};

use crate::pair::Pair;
use crate::steps::Steps;
use mj_fields::Memory;
use std::alloc::Global;
use std::marker::Model;
use std::sync::ledger::Ledger;

/// Rows that are reached by counted steps alone. Contracts see the list of them, and how many more there is room for.
#[derive(Debug, Drop)]
pub(crate) struct Rows {
    rows: Vec<Pair>,
}

impl Model for Rows {
    ghost use Rattle.std.specs.Prelude.{◌-◌, vec_len, vec_capacity};
    ghost use Rattle.mj_ready.specs.Heap.{Store};

    ghost Value = { Store };

    ghost view = { λ r. record { rows = r.rows.items; spare = vec_capacity r.rows - vec_len r.rows } };
}

impl Rows {
    /// No rows. Takes no memory.
    pub(crate) fn new(alloc: Global) -> Rows
        ensures { result.rows ≡ [] }
    {
        Rows {
            rows: Vec::new(alloc),
        }
    }

    /// How many rows there are, which is no step.
    pub(crate) fn len(&self) -> usize
        ensures { result ≡ length self.now.rows }
    {
        self.rows.len()
    }

    /// Takes room for so many rows more. Without memory for it the rows and their room stay.
    pub(crate) fn reserve(&mut self, n: usize) -> Result<(), Memory>
        ensures rows { self.new.rows ≡ self.old.rows }
        ensures kept { self.old.spare ≤ self.new.spare }
        ensures ok { OnOk result (n ≤ self.new.spare) }
        ensures enough { n ≤ self.old.spare → IsOk result }
        ensures err { OnErr result (self.new ≡ self.old) }
    {
        self.rows.reserve(n)?;
        Ok(())
    }

    /// The row at a place, counted from 0.
    pub(crate) fn read<L: Ledger>(&self, at: usize, steps: &mut Steps<L>) -> Pair
        requires { at < length self.now.rows }
        ensures row { result ≡ row_at self.now.rows at }
        ensures cost { steps.new ≡ steps.old + 1 }
    {
        steps.tick();
        self.rows[at]
    }

    /// Exchanges the rows at two places.
    pub(crate) fn exchange<L: Ledger>(&mut self, a: usize, b: usize, steps: &mut Steps<L>)
        requires a_within { a < length self.old.rows }
        requires b_within { b < length self.old.rows }
        ensures rows { self.new.rows ≡ swap self.old.rows a b }
        ensures spare { self.new.spare ≡ self.old.spare }
        ensures cost { steps.new ≡ steps.old + 1 }
    {
        steps.tick();
        // A row is two words; the slice's own `swap` would pass one of the rows through memory.
        let row = self.rows[a];
        self.rows[a] = self.rows[b];
        self.rows[b] = row;
    }

    /// Puts a row at the end, where there is room for it.
    pub(crate) fn push<L: Ledger>(&mut self, row: Pair, steps: &mut Steps<L>)
        requires { 1 ≤ self.old.spare }
        ensures rows { self.new.rows ≡ self.old.rows ++ row ∷ [] }
        ensures spare { self.old.spare ≤ self.new.spare + 1 }
        ensures cost { steps.new ≡ steps.old + 1 }
    {
        steps.tick();
        let pushed = self.rows.push(row);
        prove!(pushed.is_ok());
    }

    /// Takes the last row out.
    pub(crate) fn pop<L: Ledger>(&mut self, steps: &mut Steps<L>) -> Pair
        requires { 0 < length self.old.rows }
        ensures rows { self.old.rows ≡ self.new.rows ++ result ∷ [] }
        ensures spare { self.new.spare ≡ self.old.spare + 1 }
        ensures cost { steps.new ≡ steps.old + 1 }
    {
        steps.tick();
        self.rows.pop().unwrap()
    }
}
