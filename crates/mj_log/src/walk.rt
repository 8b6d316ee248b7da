ghost use Rattle.std.specs.Prelude.{IsNone, ◌≡◌, ◌+◌, ◌-◌, ◌*◌, ◌<◌, ◌≤◌, ◌^◌, [], ◌∷◌, ◌++◌, ℕ, List, Some, length, take, drop, get_or, IfOk, IfErr, IfSome};
ghost use Rattle.std.specs.Str.{bytes_eq};
ghost use Rattle.mj_terms.specs.Causes.{HasCause};
ghost use Rattle.mj_disk.specs.Moments.{Now};
ghost use Rattle.mj_log.specs.Journal.{magic, payloads};
ghost use Rattle.mj_log.specs.Header.{IsHeader, IsFrame, StopsAt};
ghost use Rattle.mj_log.specs.Places.{AreSpaced, IsWalked};
ghost use Rattle.mj_log.specs.View.{Refuses, IsCounted};

use crate::LogFault;
use mj_disk::{Disk, DiskFailed};
use std::alloc::Global;

/// The places of the gates, and that of the closing one.
#[derive(Debug, Drop)]
pub struct Places {
    pub gates: Vec<u64>,
    pub end: u64,
}

/// A gate, and the length of the payload behind it where all bytes of the length are there.
#[derive(Clone, Copy, Debug)]
struct Header {
    gate: u8,
    size: Option<u64>,
}

/// What the first so many of these bytes say.
fn header_of(head: [u8; 5], count: usize) -> Header
    requires { count ≤ 5 }
    ensures { (bytes : List ℕ) → (at : ℕ) → at < length bytes → take count head ≡ take 5 (drop at bytes) → IsHeader bytes at result.gate result.size }
{
    let [gate, a, b, c, d] = head;
    if count < 5 {
        return Header { gate, size: None };
    }
    let size = u64::from(a) + 256 * (u64::from(b) + 256 * (u64::from(c) + 256 * u64::from(d)));
    Header {
        gate,
        size: Some(size),
    }
}

/// Reads the gate at a place and the length behind it.
fn read_header<D: Disk>(disk: &mut D, at: u64) -> Result<Header, DiskFailed>
    requires { Now (D.moments disk.old) (λ m. at < length m.bytes) }
    ensures header { IfOk result (λ h. Now (D.moments disk.old) (λ m. IsHeader m.bytes at h.gate h.size)) }
    ensures same { D.moments disk.new ≡ D.moments disk.old }
    ensures cause { HasCause (record {}) (D.faults disk.old) (D.faults disk.new) result }
{
    let mut head = [0u8; 5];
    let count = disk.read(at, &mut head)?;
    Ok(header_of(head, count))
}

/// Where the frame at a gate ends, if all of it and one byte more are in a file of this length.
fn frame_end(size: Option<u64>, gate: u64, file: u64) -> Option<u64>
    requires within { gate < file }
    requires bound { file < 2 ^ 63 }
    ensures some { IfSome result (λ next. (gate + 5 ≤ next) × (next < file) × (next - (gate + 5) ≤ 134217728) × (size ≡ Some (next - (gate + 5)))) }
    ensures none { IsNone result → (n : ℕ) → size ≡ Some n → n ≤ 134217728 → file ≤ gate + 5 + n }
{
    let size = size?;
    if size > 134_217_728 || gate + 5 + size >= file {
        return None;
    }
    Some(gate + 5 + size)
}

/// The fault of a call on the disk that failed.
pub fn fault_of<D: Disk>(disk: &D) -> LogFault
    ensures { result ≡ LogFault.DiskFault (D.faults disk.now) }
{
    LogFault::DiskFault {
        faults: disk.faults(),
    }
}

/// Keeps the place of an open gate and answers where its frame ends; `None` at a closed gate.
fn pass<D: Disk>(
    disk: &mut D,
    file: u64,
    gates: &mut Vec<u64>,
    end: u64,
) -> Result<Option<u64>, LogFault>
    requires within { end < file }
    requires bound { file < 2 ^ 63 }
    requires file { Now (D.moments disk.old) (λ m. length m.bytes ≡ file) }
    ensures same { D.moments disk.new ≡ D.moments disk.old }
    ensures open { IfOk result (λ found. IfSome found (λ next. (gates.new.items ≡ gates.old.items ++ end ∷ []) × (end + 5 ≤ next) × (next < file))) }
    ensures frame { IfOk result (λ found. IfSome found (λ next. Now (D.moments disk.old) (λ m. IsFrame m.bytes end next))) }
    ensures closed { IfOk result (λ found. IsNone found → (gates.new.items ≡ gates.old.items) × Now (D.moments disk.old) (λ m. get_or m.bytes end 0 ≡ 0)) }
    ensures fault { IfErr result (λ e. Now (D.moments disk.old) (λ m. StopsAt e (length gates.old.items) m.bytes end)) }
    ensures cause { IsCounted (D.faults disk.old) (D.faults disk.new) result }
{
    let Ok(header) = read_header(disk, end) else {
        return Err(fault_of(disk));
    };
    if header.gate == 0 {
        return Ok(None);
    }
    let Some(next) = frame_end(header.size, end, file) else {
        return Err(LogFault::Damaged {
            number: gates.len() as u64,
        });
    };
    if gates.push(end).is_err() {
        return Err(LogFault::Memory);
    }
    Ok(Some(next))
}

/// Goes from gate to gate up to the closed one, keeps the places of the others and answers its own.
fn walk<D: Disk>(disk: &mut D, file: u64, gates: &mut Vec<u64>) -> Result<u64, LogFault>
    requires none { gates.old.items ≡ [] }
    requires long { 9 < file }
    requires bound { file < 2 ^ 63 }
    requires file { Now (D.moments disk.old) (λ m. length m.bytes ≡ file) }
    requires begins { Now (D.moments disk.old) (λ m. take 8 m.bytes ≡ magic) }
    ensures same { D.moments disk.new ≡ D.moments disk.old }
    ensures found { IfOk result (λ end. Now (D.moments disk.old) (λ m. IsWalked gates.new.items end m.bytes)) }
    ensures spaced { IfOk result (λ end. AreSpaced gates.new.items end × (end < file)) }
    ensures fault { IfErr result (λ e. Now (D.moments disk.old) (λ m. Refuses e (payloads m.bytes))) }
    ensures cause { IsCounted (D.faults disk.old) (D.faults disk.new) result }
{
    let mut end = 8;
    loop {
        match pass(disk, file, gates, end)? {
            Some(next) => end = next,
            None => return Ok(end),
        }
    }
}

/// Whether the file begins as a journal does.
fn has_magic<D: Disk>(disk: &mut D) -> Result<bool, DiskFailed>
    requires { Now (D.moments disk.old) (λ m. 8 ≤ length m.bytes) }
    ensures begins { IfOk result (λ is. Now (D.moments disk.old) (λ m. is ≡ bytes_eq (take 8 m.bytes) magic)) }
    ensures same { D.moments disk.new ≡ D.moments disk.old }
    ensures cause { HasCause (record {}) (D.faults disk.old) (D.faults disk.new) result }
{
    let mut head = [0u8; 8];
    disk.read(0, &mut head)?;
    Ok(head.as_slice() == b"MJSPOOL1".as_slice())
}

/// Finds the gates of a file of this length.
pub fn scan<D: Disk>(alloc: Global, disk: &mut D, file: u64) -> Result<Places, LogFault>
    requires long { 9 < file }
    requires bound { file < 2 ^ 63 }
    requires file { Now (D.moments disk.old) (λ m. length m.bytes ≡ file) }
    ensures same { D.moments disk.new ≡ D.moments disk.old }
    ensures found { IfOk result (λ p. Now (D.moments disk.old) (λ m. IsWalked p.gates.items p.end m.bytes)) }
    ensures spaced { IfOk result (λ p. AreSpaced p.gates.items p.end × (p.end < file)) }
    ensures fault { IfErr result (λ e. Now (D.moments disk.old) (λ m. Refuses e (payloads m.bytes))) }
    ensures cause { IsCounted (D.faults disk.old) (D.faults disk.new) result }
{
    match has_magic(disk) {
        Ok(true) => {}
        Ok(false) => return Err(LogFault::NotAJournal),
        Err(_) => return Err(fault_of(disk)),
    }
    let mut gates = Vec::new(alloc);
    let end = walk(disk, file, &mut gates)?;
    Ok(Places { gates, end })
}
