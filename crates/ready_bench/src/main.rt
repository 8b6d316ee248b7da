//! Puts so many pairs as its argument says into a due queue, the latest first, takes all out again, and prints how many
//! came in order. `bench/bench.py` compares its times at two numbers. The status is 0 where all came in order, and else 1.
#![tactic(auto)]

ghost use Rattle.std.specs.Prelude.{◌≡◌, ◌≤◌, []};

use mj_fields::Memory;
use mj_ready::DueQueue;
use std::alloc::Global;
use std::env;
use std::process::ExitCode;
use std::rt::Env;

/// The number that the first word behind the program's name is, if it is one.
fn count_of<R: Env + AllocGlobal>(rt: &R) -> Option<u32> {
    env::args(rt).ok()?.nth(1)?.parse::<u32>().ok()
}

/// Puts in a pair for each moment below the count, the latest first.
fn fill(queue: &mut DueQueue, count: u32)
    requires empty { queue.old.pairs ≡ [] }
    requires room { count ≤ queue.old.spare }
{
    for due in (0..count).rev() {
        queue.add(u64::from(due), 0);
    }
}

/// Whether there is a pair for each moment below the count, and the queue gives them in order.
fn takes_all_in_order(queue: &mut DueQueue, count: u32) -> bool {
    for due in 0..count {
        if !is_due(queue.take_least(), due) {
            return false;
        }
    }
    queue.take_least().is_none()
}

fn is_due(pair: Option<(u64, u64)>, due: u32) -> bool {
    match pair {
        Some((moment, 0)) => moment == u64::from(due),
        _ => false,
    }
}

fn passes(alloc: Global, count: u32) -> Result<bool, Memory> {
    let mut queue = DueQueue::new(alloc);
    queue.reserve(count as usize)?;
    fill(&mut queue, count);
    Ok(takes_all_in_order(&mut queue, count))
}

fn main(rt: HostRuntime) -> ExitCode {
    let Some(count) = count_of(&rt) else {
        return ExitCode::FAILURE;
    };
    match passes(rt.alloc(), count) {
        Ok(true) if println!(rt; "{count}").is_ok() => ExitCode::SUCCESS,
        _ => ExitCode::FAILURE,
    }
}
