ghost use Rattle.std.specs.Prelude.{◌≤◌};

use crate::logs::{FAR, ONE, add, add_together, has_payload, log_of};
use mj_disk::MemoryDisk;
use mj_log::{Log, LogFault};
use std::alloc::Global;
use std::test::Fail;

/// Frames with several gates, and bytes behind the closed one.
const SEVERAL: &[u8] = b"MJSPOOL1\x01\x03\0\0\0one\x07\0\0\0\0\xff\x05\0\0\0three\0\x01\x09";

#[test]
fn a_new_disk_takes_a_payload(rt: HostRuntime) -> Result<(), Fail> {
    let mut log = log_of(rt.alloc(), b"", &[], 100)?;
    let number = add(&mut log, b"x");
    assert!(rt; number == Ok(0) && log.count() == 1);
    assert_eq!(rt; log.into_disk().bytes(), ONE);
    Ok(())
}

/// What the append of the byte `x` to a new log with this limit answers.
fn add_x(alloc: Global, limit: u64) -> Result<u64, LogFault>
    requires { limit ≤ 1000000 }
{
    let mut log = log_of(alloc, b"", &[], limit)?;
    add(&mut log, b"x")
}

/// What the append of three payloads together answers.
fn add_three(alloc: Global, limit: u64) -> Result<u64, LogFault>
    requires { limit ≤ 1000000 }
{
    let mut log = log_of(alloc, b"", &[], limit)?;
    add_together(alloc, &mut log, true)
}

#[test]
fn the_limit_is_kept(rt: HostRuntime) -> Result<(), Fail> {
    let alloc = rt.alloc();
    let full = |need| Err(LogFault::Full { end: 8, need });
    assert!(rt; add_x(alloc, 14) == full(15) && add_x(alloc, 15) == Ok(0));
    assert!(rt; add_three(alloc, 34) == full(35) && add_three(alloc, 35) == Ok(0));
    Ok(())
}

/// Whether the log still reads its payload, and refuses each addition with this count.
fn is_stopped(alloc: Global, log: &mut Log<MemoryDisk>, faults: u64) -> Result<bool, LogFault> {
    let stopped = Err(LogFault::Stopped { faults });
    Ok(
        add(log, b"y") == stopped
            && add_together(alloc, log, true) == stopped
            && log.faults() == faults
            && has_payload(log, 0, b"x")?,
    )
}

#[test]
fn a_fault_stops_the_log(rt: HostRuntime) -> Result<(), Fail> {
    let alloc = rt.alloc();
    // five calls to reopen, and then the third of an append
    let mut log = log_of(alloc, ONE, &[8], FAR)?;
    let fault = add(&mut log, b"y");
    let stopped = is_stopped(alloc, &mut log, 1);
    assert!(rt; fault == Err(LogFault::DiskFault { faults: 1 }) && stopped == Ok(true));
    Ok(())
}

/// How the reopening of these bytes ends.
fn count_of(alloc: Global, bytes: &[u8]) -> Result<u64, LogFault> {
    let log = log_of(alloc, bytes, &[], FAR)?;
    Ok(log.count())
}

#[test]
fn files_are_read_or_refused(rt: HostRuntime) -> Result<(), Fail> {
    let alloc = rt.alloc();
    let journals: [(&[u8], u64); 6] = [
        (b"", 0),
        (b"otherwise", 0),
        (b"MJSPOOL1\0", 0),
        (b"MJSPOOL1\0 any bytes", 0),
        (ONE, 1),
        (SEVERAL, 3),
    ];
    for (bytes, count) in journals {
        assert!(rt; count_of(alloc, bytes) == Ok(count));
    }
    let damaged: [(&[u8], u64); 5] = [
        (b"MJSPOOL1\x01\x01\0\0\x08 more bytes", 0),
        (b"MJSPOOL1\x01\xff\xff\xff\xff more bytes", 0),
        (b"MJSPOOL1\x01\x01\0\0\0x", 0),
        (b"MJSPOOL1\x01\x01", 0),
        (b"MJSPOOL1\x01\x01\0\0\0x\x07\x02\0\0\0yz", 1),
    ];
    for (bytes, number) in damaged {
        assert!(rt; count_of(alloc, bytes) == Err(LogFault::Damaged { number }));
    }
    let other = count_of(alloc, b"MJSPOOL2\x01\x01\0\0\0x\0");
    assert!(rt; other == Err(LogFault::NotAJournal));
    Ok(())
}

/// Whether these are the first payloads of the log.
fn has_payloads(log: &mut Log<MemoryDisk>, wants: &[&[u8]]) -> Result<bool, LogFault> {
    for (number, want) in wants.iter().enumerate() {
        if !has_payload(log, number as u64, want)? {
            return Ok(false);
        }
    }
    Ok(true)
}

#[test]
fn payloads_are_read_where_they_stand(rt: HostRuntime) -> Result<(), Fail> {
    let mut log = log_of(rt.alloc(), SEVERAL, &[], FAR)?;
    let added = add(&mut log, b"four");
    let right = has_payloads(&mut log, &[b"one", b"", b"three", b"four"]);
    let past = has_payload(&mut log, 4, b"");
    assert!(rt; added == Ok(3) && right == Ok(true) && past == Ok(false));
    Ok(())
}

#[test]
fn a_read_that_fails_stops_nothing(rt: HostRuntime) -> Result<(), Fail> {
    // nine calls to reopen: three gates and the closed one are four of them
    let mut log = log_of(rt.alloc(), SEVERAL, &[10], FAR)?;
    let failed = has_payload(&mut log, 0, b"one");
    let again = has_payload(&mut log, 0, b"one");
    let added = add(&mut log, b"four");
    assert!(rt;
        failed == Err(LogFault::DiskFault { faults: 1 }) && again == Ok(true) && added == Ok(3)
    );
    Ok(())
}
