//! Disks: where the files of runs are kept, in memory or on the machine.
#![tactic(auto)]

mod disk;
mod file_map;
mod memory_disk;
mod std_disk;

pub use disk::{Disk, DiskError};
pub use memory_disk::MemoryDisk;
pub use std_disk::StdDisk;
