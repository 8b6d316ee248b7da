ghost use Rattle.std.specs.Prelude.{◌≡◌, ◌+◌, ◌<◌, ◌≤◌, ◌^◌, ℕ, List, length, take, drop, IfOk};
ghost use Rattle.mj_terms.specs.Causes.{HasCause};
ghost use Rattle.mj_disk.specs.Media.{Media, IsImage, written, shortened, synced};
ghost use Rattle.mj_disk.specs.Moments.{Now, Changes};

/// The disk failed; its count of faults rose.
#[derive(Clone, Copy, Debug, PartialEq, Eq)]
pub struct DiskFailed;

/// A file whose bytes a crash may tear until they are synced. Places and lengths count bytes.
pub trait Disk {
    /// The disk at each moment so far, the newest first; none where it doesn't tell its bytes.
    ghost moments: { Self → List Media };

    /// How often the disk has failed.
    ghost faults: { Self → ℕ };

    /// The number of bytes.
    fn length(&mut self) -> Result<u64, DiskFailed>
        ensures length { IfOk result (λ n. Now (moments self.old) (λ m. n ≡ length m.bytes)) }
        ensures bound { IfOk result (λ n. n < 2 ^ 63) }
        ensures same { moments self.new ≡ moments self.old }
        ensures cause { HasCause (record {}) (faults self.old) (faults self.new) result };

    /// Fills the piece with the bytes from a place on, as many as there are, and says how many it filled.
    fn read(&mut self, at: u64, into: &mut [u8]) -> Result<usize, DiskFailed>
        requires { Now (moments self.old) (λ m. at ≤ length m.bytes) }
        ensures bound { IfOk result (λ n. n ≤ length into.old) }
        ensures bytes { IfOk result (λ n. Now (moments self.old) (λ m. take n into.new ≡ take (length into.old) (drop at m.bytes))) }
        ensures rest { IfOk result (λ n. Now (moments self.old) (λ _. drop n into.new ≡ drop n into.old)) }
        ensures same { moments self.new ≡ moments self.old }
        ensures cause { HasCause (record {}) (faults self.old) (faults self.new) result };

    /// Writes over what is there, and past the end. Until a sync a crash may leave any bytes in the range.
    fn write_at(&mut self, at: u64, bytes: &[u8]) -> Result<(), DiskFailed>
        requires within { Now (moments self.old) (λ m. at ≤ length m.bytes) }
        requires bound { at + length bytes.now < 2 ^ 63 }
        ensures change { Changes (written at bytes.now) (written at bytes.now) (moments self.old) (moments self.new) result }
        ensures cause { HasCause (record {}) (faults self.old) (faults self.new) result };

    /// Cuts the file to a length. Until a sync a crash may leave what was cut, or any bytes there.
    fn cut(&mut self, size: u64) -> Result<(), DiskFailed>
        requires { Now (moments self.old) (λ m. size ≤ length m.bytes) }
        ensures change { Changes (shortened size) (shortened size) (moments self.old) (moments self.new) result }
        ensures cause { HasCause (record {}) (faults self.old) (faults self.new) result };

    /// After it a crash leaves what a read gives.
    fn sync(&mut self) -> Result<(), DiskFailed>
        ensures change { Changes synced (λ m. m) (moments self.old) (moments self.new) result }
        ensures cause { HasCause (record {}) (faults self.old) (faults self.new) result };

    /// The count of faults. No call on the device.
    fn faults(&self) -> u64
        ensures { result ≡ faults self.now };

    /// The disk as it reads is one of its images.
    ghost reads: { (disk : Self) → Now (moments disk) (λ m. IsImage m m.bytes) };
}
