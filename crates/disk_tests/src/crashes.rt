use crate::logs::{FAR, add, add_together, disk_of, has_payload, log_of};
use mj_disk::MemoryDisk;
use mj_log::{Log, LogFault};
use std::alloc::Global;
use std::test::Fail;

/// The payload that is added with this number.
fn added(number: u64) -> &'static [u8] {
    match number {
        0 => b"first",
        1 => b"one",
        2 => b"two",
        _ => b"three",
    }
}

/// Appends one payload, and then others together.
fn add_both(alloc: Global, log: &mut Log<MemoryDisk>, three: bool) -> Result<u64, LogFault> {
    add(log, b"first")?;
    add_together(alloc, log, three)
}

/// Whether each payload of a log is the one that was added with its number.
fn has_the_added(log: &mut Log<MemoryDisk>) -> Result<bool, LogFault> {
    for number in 0..log.count() {
        if !has_payload(log, number, added(number))? {
            return Ok(false);
        }
    }
    Ok(true)
}

/// Whether this image of the disk is a journal with one of these numbers of payloads, each as it was added.
fn image_has(
    alloc: Global,
    disk: &MemoryDisk,
    number: u32,
    before: u64,
    after: u64,
) -> Result<bool, LogFault> {
    let Ok(image) = disk.image(number) else {
        return Err(LogFault::Memory);
    };
    let mut log = match Log::reopen(alloc, image, FAR) {
        Ok(log) => log,
        Err(refused) => return Err(refused.fault),
    };
    let count = log.count();
    Ok((count == before || count == after) && has_the_added(&mut log)?)
}

/// How many payloads there are once the interrupted addition is done.
fn count_after(before: u64, three: bool) -> u64 {
    match (before, three) {
        (0, _) => 1,
        (_, false) => 2,
        (_, true) => 4,
    }
}

/// Whether the images of these numbers have the payloads from before the fault, with the new ones or without.
fn images_have(
    alloc: Global,
    log: Log<MemoryDisk>,
    three: bool,
    first: u32,
    count: u32,
) -> Result<bool, LogFault> {
    let before = log.count();
    let after = count_after(before, three);
    let disk = log.into_disk();
    for number in 0..count {
        if !image_has(alloc, &disk, first.wrapping_add(number), before, after)? {
            return Ok(false);
        }
    }
    Ok(true)
}

/// Whether a fault of this call stops the log, and a crash then leaves a right journal.
fn is_right_after_fault(alloc: Global, call: u64, three: bool) -> Result<bool, LogFault> {
    let mut log = log_of(alloc, b"", &[call], FAR)?;
    let fault = add_both(alloc, &mut log, three);
    let stopped = log.append_all(&[]);
    Ok(
        fault == Err(LogFault::DiskFault { faults: 1 })
            && stopped == Err(LogFault::Stopped { faults: 1 })
            && images_have(alloc, log, three, 0, 4)?,
    )
}

/// Whether a crash leaves a right journal where the disk stops after so many calls.
fn is_right_after_stop(alloc: Global, schedule: u32, three: bool) -> Result<bool, LogFault> {
    let Ok(mut disk) = disk_of(alloc, b"", &[]) else {
        return Err(LogFault::Memory);
    };
    disk.stop_after(u64::from(4 + schedule % 9));
    let mut log = match Log::reopen(alloc, disk, FAR) {
        Ok(log) => log,
        Err(refused) => return Err(refused.fault),
    };
    let _outcome = add_both(alloc, &mut log, three);
    images_have(alloc, log, three, schedule, 1)
}

#[test]
fn each_call_fails_once(rt: HostRuntime) -> Result<(), Fail> {
    let alloc = rt.alloc();
    // the calls of a reopening of a new disk are four
    for call in 5..=12 {
        let one = is_right_after_fault(alloc, call, false);
        let three = is_right_after_fault(alloc, call, true);
        assert!(rt; one == Ok(true) && three == Ok(true), "call {call}");
    }
    Ok(())
}

#[test]
fn a_disk_stops_at_any_call(rt: HostRuntime) -> Result<(), Fail> {
    let alloc = rt.alloc();
    for schedule in 0..1_000 {
        let three = schedule / 9 % 2 == 1;
        assert!(rt;
            is_right_after_stop(alloc, schedule, three)?,
            "schedule {schedule}"
        );
    }
    Ok(())
}
