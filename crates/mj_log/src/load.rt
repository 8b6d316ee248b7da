ghost use Rattle.std.specs.Prelude.{◌≡◌, ◌+◌, ◌<◌, ◌≤◌, ◌^◌, ℕ, List, length, IfOk, IfErr};
ghost use Rattle.mj_disk.specs.Moments.{Now, LeavesOnly, bytes_now};
ghost use Rattle.mj_log.specs.Journal.{payloads};
ghost use Rattle.mj_log.specs.Log.{ReadsAsAt};
ghost use Rattle.mj_log.specs.Places.{AreSpaced, IsJournal};
ghost use Rattle.mj_log.specs.View.{IsAtRest, IsCounted, ReadsLike, Refuses, Keeps};

use crate::LogFault;
use crate::gate::{close_behind, write_anew};
use crate::walk::{Places, fault_of, scan};
use mj_disk::Disk;
use std::alloc::Global;

/// Syncs the disk, and answers its length.
fn settle<D: Disk>(disk: &mut D) -> Result<u64, LogFault>
    ensures any_moment { LeavesOnly (D.moments disk.old) (D.moments disk.new) (ReadsAsAt (D.moments disk.old)) }
    ensures rests { IfOk result (λ _. Now (D.moments disk.new) IsAtRest) }
    ensures size { IfOk result (λ size. Now (D.moments disk.new) (λ m. length m.bytes ≡ size)) }
    ensures small { IfOk result (λ size. size < 2 ^ 63) }
    ensures kept { IfOk result (λ _. bytes_now (D.moments disk.new) ≡ bytes_now (D.moments disk.old)) }
    ensures fault { IfErr result (λ e. e ≡ LogFault.DiskFault (D.faults disk.new)) }
    ensures cause { IsCounted (D.faults disk.old) (D.faults disk.new) result }
{
    if disk.sync().is_err() {
        return Err(fault_of(disk));
    }
    match disk.length() {
        Ok(size) => Ok(size),
        Err(_) => Err(fault_of(disk)),
    }
}

/// Writes a file of at most nine bytes anew.
fn begin<D: Disk>(alloc: Global, disk: &mut D) -> Result<Places, LogFault>
    requires rests { Now (D.moments disk.old) IsAtRest }
    requires short { Now (D.moments disk.old) (λ m. length m.bytes ≤ 9) }
    ensures any_moment { LeavesOnly (D.moments disk.old) (D.moments disk.new) (ReadsLike (D.moments disk.old)) }
    ensures journal { IfOk result (λ p. Now (D.moments disk.new) (IsJournal p.gates.items p.end)) }
    ensures spaced { IfOk result (λ p. AreSpaced p.gates.items p.end × (p.end < 2 ^ 63)) }
    ensures fault { IfErr result (λ e. e ≡ LogFault.DiskFault (D.faults disk.new)) }
    ensures cause { IsCounted (D.faults disk.old) (D.faults disk.new) result }
{
    match write_anew(disk, &[77, 74, 83, 80, 79, 79, 76, 49, 0]) {
        Ok(()) => Ok(Places {
            gates: Vec::new(alloc),
            end: 8,
        }),
        Err(_) => Err(fault_of(disk)),
    }
}

/// Cuts what stands behind the closed gate of a file of this length.
fn repair<D: Disk>(alloc: Global, disk: &mut D, file: u64) -> Result<Places, LogFault>
    requires rests { Now (D.moments disk.old) IsAtRest }
    requires long { 9 < file }
    requires bound { file < 2 ^ 63 }
    requires file { Now (D.moments disk.old) (λ m. length m.bytes ≡ file) }
    ensures any_moment { LeavesOnly (D.moments disk.old) (D.moments disk.new) (ReadsLike (D.moments disk.old)) }
    ensures journal { IfOk result (λ p. Now (D.moments disk.new) (IsJournal p.gates.items p.end)) }
    ensures spaced { IfOk result (λ p. AreSpaced p.gates.items p.end × (p.end < 2 ^ 63)) }
    ensures fault { IfErr result (λ e. Now (D.moments disk.old) (λ m. Refuses e (payloads m.bytes))) }
    ensures kept { IfErr result (λ e. Keeps e (D.moments disk.old) (D.moments disk.new)) }
    ensures cause { IsCounted (D.faults disk.old) (D.faults disk.new) result }
{
    let places = scan(alloc, disk, file)?;
    match close_behind(disk, places.end, file) {
        Ok(()) => Ok(places),
        Err(_) => Err(fault_of(disk)),
    }
}

/// Opens a disk that a crash may have left.
pub fn load<D: Disk>(alloc: Global, disk: &mut D) -> Result<Places, LogFault>
    ensures any_moment { LeavesOnly (D.moments disk.old) (D.moments disk.new) (ReadsAsAt (D.moments disk.old)) }
    ensures same { IfOk result (λ p. Now (D.moments disk.old) (λ m. Now (D.moments disk.new) (λ n. payloads n.bytes ≡ payloads m.bytes))) }
    ensures journal { IfOk result (λ p. Now (D.moments disk.new) (IsJournal p.gates.items p.end)) }
    ensures spaced { IfOk result (λ p. AreSpaced p.gates.items p.end × (p.end < 2 ^ 63)) }
    ensures fault { IfErr result (λ e. Now (D.moments disk.old) (λ m. Refuses e (payloads m.bytes))) }
    ensures kept { IfErr result (λ e. Keeps e (D.moments disk.old) (D.moments disk.new)) }
    ensures cause { IsCounted (D.faults disk.old) (D.faults disk.new) result }
{
    let size = settle(disk)?;
    if size <= 9 {
        begin(alloc, disk)
    } else {
        repair(alloc, disk, size)
    }
}
