//! The file of states as a disk: what a read gives, and what a crash may leave.
//!
//! [`Disk`] is one file with its calls. All that keeps states in the crates above is generic over
//! it, and speaks of crashes by the members of its contract. [`MemDisk`] is such a file in memory,
//! with faults at chosen calls, and gives images of a crash. [`FileDisk`] is one of the system; it
//! counts every failure and tells nothing of bytes.
#![tactic(auto)]

mod disk;
mod file_disk;
mod history;
mod late_file;
mod mem_disk;
mod pick;
#[cfg(test)]
mod tests;

pub use disk::Disk;
pub use file_disk::FileDisk;
pub use grape_port::Failed;
pub use mem_disk::MemDisk;
pub use pick::Pick;
