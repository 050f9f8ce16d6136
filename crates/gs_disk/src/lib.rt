//! The folder that `gs` works in, as a trait that says what a crash may leave, such a folder in
//! memory, and reading a file whole.
#![tactic(auto)]

mod calls;
mod crash;
mod disk;
mod files;
mod mem;
mod name;
mod now;
mod steps;
mod whole;

pub use crash::Keep;
pub use disk::{Disk, DiskErr};
pub use mem::MemDisk;
pub use name::{DiskName, is_disk_name};
pub use whole::{Whole, read_whole};

#[cfg(test)]
mod tests;
