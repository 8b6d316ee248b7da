ghost use Rattle.std.specs.Prelude.{◌≡◌, ◌≤◌, length, IfOk};

use mj_disk::{Disk, MemoryDisk};
use mj_fields::{Bytes, Items, Memory};
use mj_log::{Log, LogFault};
use std::alloc::Global;

/// A limit that no test reaches.
pub const FAR: u64 = 1_000_000;

/// A journal with the one payload `x`.
pub const ONE: &[u8] = b"MJSPOOL1\x01\x01\0\0\0x\0";

/// A disk with these bytes, whose calls with these numbers fail.
pub fn disk_of(alloc: Global, bytes: &[u8], failing: &[u64]) -> Result<MemoryDisk, Memory> {
    let mut numbers = Items::new(alloc);
    for &number in failing {
        numbers.push(number)?;
    }
    MemoryDisk::make(alloc, Bytes::from_slice(alloc, bytes)?, numbers)
}

/// A log on such a disk.
pub fn log_of(
    alloc: Global,
    bytes: &[u8],
    failing: &[u64],
    limit: u64,
) -> Result<Log<MemoryDisk>, LogFault>
    requires { limit ≤ 1000000 }
{
    let Ok(disk) = disk_of(alloc, bytes, failing) else {
        return Err(LogFault::Memory);
    };
    match Log::reopen(alloc, disk, limit) {
        Ok(log) => Ok(log),
        Err(refused) => Err(refused.fault),
    }
}

/// Finds room for a payload, and appends it.
pub fn add<D: Disk + Drop>(log: &mut Log<D>, payload: &[u8]) -> Result<u64, LogFault>
    requires { length payload.now ≤ 134217728 }
{
    if log.prepare(payload.len()).is_err() {
        return Err(LogFault::Memory);
    }
    log.append(payload)
}

fn text(alloc: Global, bytes: &[u8]) -> Result<Vec<u8>, LogFault>
    ensures { IfOk result (λ v. v.items ≡ bytes.now) }
{
    match Vec::from_slice(alloc, bytes) {
        Ok(text) => Ok(text),
        Err(_) => Err(LogFault::Memory),
    }
}

/// Appends `one`, or `one`, `two` and `three` together.
pub fn add_together<D: Disk + Drop>(
    alloc: Global,
    log: &mut Log<D>,
    three: bool,
) -> Result<u64, LogFault> {
    let one = text(alloc, b"one")?;
    if !three {
        return log.append_all(&[one]);
    }
    let two = text(alloc, b"two")?;
    let three = text(alloc, b"three")?;
    log.append_all(&[one, two, three])
}

/// Whether the log has these bytes as the payload of this number, whole and byte by byte.
pub fn has_payload<D: Disk + Drop>(
    log: &mut Log<D>,
    number: u64,
    want: &[u8],
) -> Result<bool, LogFault> {
    Ok(has_whole(log, number, want)? && has_bytes(log, number, want)?)
}

fn has_whole<D: Disk + Drop>(log: &mut Log<D>, number: u64, want: &[u8]) -> Result<bool, LogFault> {
    if number >= log.count() || log.payload_len(number) != want.len() as u64 {
        return Ok(false);
    }
    let payload = log.payload(number)?;
    Ok(payload.as_slice() == want)
}

fn has_bytes<D: Disk + Drop>(log: &mut Log<D>, number: u64, want: &[u8]) -> Result<bool, LogFault> {
    for (from, &byte) in want.iter().enumerate() {
        if !has_byte(log, number, from as u64, byte)? {
            return Ok(false);
        }
    }
    Ok(true)
}

/// Whether the payload of this number has this byte at a place.
fn has_byte<D: Disk + Drop>(
    log: &mut Log<D>,
    number: u64,
    from: u64,
    want: u8,
) -> Result<bool, LogFault> {
    if number >= log.count() || from >= log.payload_len(number) {
        return Ok(false);
    }
    let mut byte = [0u8];
    log.part(number, from, &mut byte)?;
    Ok(byte[0] == want)
}
