//! A binary heap in a store of rows.
ghost use Rattle.std.specs.Prelude.{◌≡◌, ℕ, ◌+◌, ◌*◌, ◌^◌, ◌<◌, ◌≤◌, [], ◌∷◌, length, slice_get, MatchOption};
ghost use Rattle.mj_ready.specs.Due.{is_before, inserted};
ghost use Rattle.mj_ready.specs.Heap.{row_at, in_order, Follows, IsHeap, RisesFrom, SinksFrom};
ghost use Rattle.mj_ready.specs.Steps.{IsDepth};

use crate::pair::{Pair, comes_before};
use crate::rows::Rows;
use crate::steps::Steps;
use std::sync::ledger::Ledger;

/// The first pair of a heap; `None` exactly where it is empty.
pub(crate) fn first<L: Ledger>(rows: &Rows, steps: &mut Steps<L>) -> Option<Pair>
    requires { IsHeap rows.now.rows }
    ensures first { result ≡ slice_get (in_order is_before rows.now.rows) 0 }
    ensures cost { steps.new ≤ steps.old + 1 }
{
    if rows.len() == 0 {
        None
    } else {
        Some(rows.read(0, steps))
    }
}

/// Puts a pair into a heap that has room for it.
pub(crate) fn put<L: Ledger>(rows: &mut Rows, row: Pair, steps: &mut Steps<L>)
    requires room { 1 ≤ rows.old.spare }
    requires heap { IsHeap rows.old.rows }
    ensures heap { IsHeap rows.new.rows }
    ensures pairs { in_order is_before rows.new.rows ≡ inserted is_before row (in_order is_before rows.old.rows) }
    ensures spare { rows.old.spare ≤ rows.new.spare + 1 }
    ensures cost { (k : ℕ) → IsDepth (length rows.old.rows + 1) k → steps.new ≤ steps.old + (1 + 2 * k) }
{
    let at = rows.len();
    rows.push(row, steps);
    rise(rows, at, row, steps);
}

/// Takes the first pair out of a heap; `None` exactly where it is empty.
pub(crate) fn take<L: Ledger>(rows: &mut Rows, steps: &mut Steps<L>) -> Option<Pair>
    requires { IsHeap rows.old.rows }
    ensures heap { IsHeap rows.new.rows }
    ensures pairs { MatchOption result
        ((in_order is_before rows.old.rows ≡ []) × (rows.new ≡ rows.old))
        (λ first. in_order is_before rows.old.rows ≡ first ∷ in_order is_before rows.new.rows) }
    ensures spare { MatchOption result (rows.new.spare ≡ rows.old.spare) (λ _. rows.new.spare ≡ rows.old.spare + 1) }
    ensures none { rows.old.rows ≡ [] → steps.new ≡ steps.old }
    ensures cost { (k : ℕ) → IsDepth (length rows.old.rows) k → steps.new ≤ steps.old + (3 + 3 * k) }
{
    let last = rows.len().checked_sub(1)?;
    rows.exchange(0, last, steps);
    let first = rows.pop(steps);
    if last > 0 {
        sink(rows, steps);
    }
    Some(first)
}

/// Moves the row at a place towards the front until it follows the row above it.
fn rise<L: Ledger>(rows: &mut Rows, mut at: usize, row: Pair, steps: &mut Steps<L>)
    requires within { at < length rows.old.rows }
    requires row { row_at rows.old.rows at ≡ row }
    requires heap { RisesFrom rows.old.rows at }
    ensures heap { IsHeap rows.new.rows }
    ensures pairs { in_order is_before rows.new.rows ≡ in_order is_before rows.old.rows }
    ensures spare { rows.new.spare ≡ rows.old.spare }
    ensures cost { (k : ℕ) → at + 1 < 2 ^ (k + 1) → steps.new ≤ steps.old + 2 * k }
{
    while at > 0 {
        let above = (at - 1) / 2;
        if !comes_before(row, rows.read(above, steps)) {
            return;
        }
        rows.exchange(at, above, steps);
        at = above;
    }
}

/// Moves the first row towards the end until the rows below it follow it.
fn sink<L: Ledger>(rows: &mut Rows, steps: &mut Steps<L>)
    requires some { 0 < length rows.old.rows }
    requires heap { SinksFrom rows.old.rows 0 }
    ensures heap { IsHeap rows.new.rows }
    ensures pairs { in_order is_before rows.new.rows ≡ in_order is_before rows.old.rows }
    ensures spare { rows.new.spare ≡ rows.old.spare }
    ensures cost { (k : ℕ) → length rows.old.rows < 2 ^ (k + 1) → steps.new ≤ steps.old + (1 + 3 * k) }
{
    let len = rows.len();
    let row = rows.read(0, steps);
    let mut at = 0;
    while at < len / 2 {
        let (below, first) = first_below(rows, at, steps);
        if !comes_before(first, row) {
            return;
        }
        rows.exchange(at, below, steps);
        at = below;
    }
}

/// The place and the row of the first of the one or two rows below the one at a place.
fn first_below<L: Ledger>(rows: &Rows, at: usize, steps: &mut Steps<L>) -> (usize, Pair)
    requires { 2 * at + 1 < length rows.now.rows }
    ensures place { (2 * at + 1 ≤ result.0) × (result.0 ≤ 2 * at + 2) × (result.0 < length rows.now.rows) }
    ensures row { result.1 ≡ row_at rows.now.rows result.0 }
    ensures first { (k : ℕ) → 2 * at + 1 ≤ k → k ≤ 2 * at + 2 → k < length rows.now.rows
        → Follows rows.now.rows k result.0 }
    ensures cost { steps.new ≤ steps.old + 2 }
{
    let len = rows.len();
    let left = 2 * at + 1;
    let right = left + 1;
    let row = rows.read(left, steps);
    if right < len {
        let other = rows.read(right, steps);
        if comes_before(other, row) {
            return (right, other);
        }
    }
    (left, row)
}
