//! Disks: bytes that outlive a crash once they are synced, with what a crash at any moment may leave.

mod disks;
mod file_disk;
pub mod laws;
mod memory_disk;

pub use disks::{Disk, DiskError};
pub use file_disk::FileDisk;
pub use memory_disk::MemoryDisk;
