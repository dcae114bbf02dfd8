//! A disk in a file, with a record of what was asked of the file.
//!
//! - [`BlockFile`] is a file as the disk needs it. Each call adds itself, with its answer, to the list of the file's
//!   calls.
//! - [`FileDisk`] is the disk over any such file, and [`DiskFileFault`] says why a file can't serve as one.
//! - [`SystemFile`] is a file of the system, and [`MemoryFile`] one in memory, for tests.
//!
//! The layer above relies on this: each read, write and sync of the disk is one call of the file, with the same place
//! and bytes. No contract says what a file keeps. `specs/Courses.antt` says what a list of calls makes of a disk by the
//! crash model, and what a crash leaves of it.
#![tactic(auto)]

mod answers;
mod block_file;
mod courses;
mod fault;
mod file_disk;
mod history;
mod memory_file;
mod system_file;

pub use block_file::BlockFile;
pub use courses::{a_course_goes_on, a_course_is_one, a_course_leaves, a_disk_follows};
pub use fault::DiskFileFault;
pub use file_disk::FileDisk;
pub use history::{CallHistory, CallKind};
pub use memory_file::MemoryFile;
pub use system_file::SystemFile;
