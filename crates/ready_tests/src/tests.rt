ghost use Rattle.std.specs.Prelude.{◌≡◌, ◌<◌, ◌≤◌, []};

use mj_ready::{DueQueue, Steps};
use std::marker::Brand;
use std::sync::ledger::{Blank, Ledger};
use std::test::Fail;

const MANY: u64 = 1_000_000;

/// Puts in a pair for each moment below the count, the latest first.
fn fill(queue: &mut DueQueue, count: u64)
    requires empty { queue.old.pairs ≡ [] }
    requires room { count ≤ queue.old.spare }
{
    for due in (0..count).rev() {
        queue.add(due, 0);
    }
}

/// A queue of two pairs by the calls that count; what they gave.
fn counted<L: Ledger>(queue: &mut DueQueue, blank: Blank) -> [Option<(u64, u64)>; 4]
    requires name { blank.name ≡ L.name }
    requires parts { blank.parts ≡ L.parts }
    requires some { 0 < blank.parts }
    requires empty { queue.old.pairs ≡ [] }
    requires room { 1 ≤ queue.old.spare }
{
    let mut steps = Steps::<L>::start(blank);
    let none = queue.least_counted(&mut steps);
    queue.add_counted(7, 1, &mut steps);
    let least = queue.least_counted(&mut steps);
    let taken = queue.take_least_counted(&mut steps);
    let after = queue.take_least_counted(&mut steps);
    [none, least, taken, after]
}

#[test]
fn pairs_come_by_moment_then_key(rt: HostRuntime) -> Result<(), Fail> {
    let mut queue = DueQueue::new(rt.alloc());
    assert_eq!(rt; queue.least(), None);
    queue.reserve(4)?;
    queue.add(5, 1);
    queue.add(3, 2);
    queue.add(3, 1);
    queue.add(9, 4);
    assert_eq!(rt; queue.least(), Some((3, 1)));
    for pair in [(3, 1), (3, 2), (5, 1), (9, 4)] {
        assert_eq!(rt; queue.take_least(), Some(pair));
    }
    assert_eq!(rt; queue.take_least(), None);
    Ok(())
}

#[test]
fn many_pairs_come_in_order(rt: HostRuntime) -> Result<(), Fail> {
    let mut queue = DueQueue::new(rt.alloc());
    queue.reserve(MANY as usize)?;
    fill(&mut queue, MANY);
    for due in 0..MANY {
        assert_eq!(rt; queue.take_least(), Some((due, 0)));
    }
    assert_eq!(rt; queue.take_least(), None);
    Ok(())
}

#[test]
fn calls_that_count(rt: HostRuntime) -> Result<(), Fail> {
    let mut queue = DueQueue::new(rt.alloc());
    queue.reserve(1)?;
    let given = counted::<Brand>(&mut queue, Blank::new(1));
    assert_eq!(rt; given, [None, Some((7, 1)), Some((7, 1)), None]);
    Ok(())
}
