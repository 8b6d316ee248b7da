//! A disk: what a read gives, what a crash may leave, and how often it failed.
//!
//! Between two syncs that succeeded each range that was written, and each part past the old or the new end, may
//! hold any bytes after a crash, and the length is any between the least and the greatest since. All other bytes
//! stay. After a sync that succeeded a crash leaves what a read gives.
#![tactic(auto)]

mod disk;
mod file;
mod image;
mod memory;
mod tape;

pub use disk::{Disk, DiskFailed};
pub use file::FileDisk;
pub use memory::MemoryDisk;
pub use tape::DiskCall;
