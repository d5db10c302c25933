//! A disk that may crash: what its calls promise, a disk in memory that tears as the rules allow,
//! and a disk over a file.
#![tactic(auto)]

mod bytes;
mod call;
mod crash;
mod disk;
mod file;
mod memory;
mod through;

pub use call::{DiskCall, Piece};
pub use crash::Crash;
pub use disk::Disk;
pub use file::FileDisk;
pub use memory::MemDisk;
pub use through::{cut_through, write_through, write_two_through};
