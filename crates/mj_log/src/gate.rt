ghost use Rattle.std.specs.Prelude.{◌≡◌, ◌+◌, ◌<◌, ◌≤◌, ◌^◌, ◌++◌, ◌∷◌, [], ℕ, List, length, OnOk};
ghost use Rattle.mj_terms.specs.Causes.{HasCause};
ghost use Rattle.mj_disk.specs.Moments.{Now, LeavesOnly, RestsAt};
ghost use Rattle.mj_log.specs.Gate.{IsGated, IsClosed, IsShort};

use mj_disk::{Disk, DiskFailed};

/// Puts the tail behind the closed gate at the end of the disk, syncs it, opens the gate and syncs that.
pub fn put_behind_gate<D: Disk>(disk: &mut D, end: u64, tail: &[u8]) -> Result<(), DiskFailed>
    requires gate { Now (D.moments disk.old) (λ m. end + 1 ≤ length m.bytes) }
    requires bound { end + 1 + length tail.now < 2 ^ 63 }
    ensures any_moment { (front : List ℕ) → length front ≡ end → RestsAt (D.moments disk.old) (front ++ 0 ∷ []) → LeavesOnly (D.moments disk.old) (D.moments disk.new) (IsGated front tail.now) }
    ensures done { (front : List ℕ) → length front ≡ end → RestsAt (D.moments disk.old) (front ++ 0 ∷ []) → OnOk result (RestsAt (D.moments disk.new) (front ++ 1 ∷ tail.now)) }
    ensures cause { HasCause (record {}) (D.faults disk.old) (D.faults disk.new) result }
{
    disk.write_at(end + 1, tail)?;
    disk.sync()?;
    disk.write_at(end, &[1])?;
    disk.sync()
}

/// Cuts what stands behind the closed gate at `end` of a file of this length. Where nothing does, no call is made.
pub fn close_behind<D: Disk>(disk: &mut D, end: u64, file: u64) -> Result<(), DiskFailed>
    requires file { Now (D.moments disk.old) (λ m. length m.bytes ≡ file) }
    requires within { Now (D.moments disk.old) (λ m. end + 1 ≤ length m.bytes) }
    requires bound { end < 2 ^ 63 }
    ensures any_moment { (front : List ℕ) (junk : List ℕ) → length front ≡ end → RestsAt (D.moments disk.old) (front ++ 0 ∷ junk) → LeavesOnly (D.moments disk.old) (D.moments disk.new) (IsClosed front) }
    ensures done { (front : List ℕ) (junk : List ℕ) → length front ≡ end → RestsAt (D.moments disk.old) (front ++ 0 ∷ junk) → OnOk result (RestsAt (D.moments disk.new) (front ++ 0 ∷ [])) }
    ensures cause { HasCause (record {}) (D.faults disk.old) (D.faults disk.new) result }
{
    if end + 1 == file {
        return Ok(());
    }
    disk.cut(end + 1)?;
    disk.sync()
}

/// Writes a short file anew.
pub fn write_anew<D: Disk>(disk: &mut D, bytes: &[u8]) -> Result<(), DiskFailed>
    requires { length bytes.now < 2 ^ 63 }
    ensures any_moment { (old : List ℕ) → length old ≤ length bytes.now → RestsAt (D.moments disk.old) old → LeavesOnly (D.moments disk.old) (D.moments disk.new) (IsShort (length bytes.now)) }
    ensures done { (old : List ℕ) → length old ≤ length bytes.now → RestsAt (D.moments disk.old) old → OnOk result (RestsAt (D.moments disk.new) bytes.now) }
    ensures cause { HasCause (record {}) (D.faults disk.old) (D.faults disk.new) result }
{
    disk.write_at(0, bytes)?;
    disk.sync()
}
