//! Disks with a written model of crashes. [`Disk`] is the trait that all layers above build on.
//!
//! - [`MemDisk`] is in memory and keeps the model; its `crash` returns what a crash would leave, by a [`Fill`].
//! - [`FuseDisk`] fails on demand.
//! - [`Relay`] is a disk that keeps errands for its owner.
//!
//! A layer above relies on three facts of an honest disk. A read gives what was written, a successful sync makes it
//! stay, and a crash changes only places that were written after that. Each fault is counted, so a contract above can
//! say that a refusal has a cause.
#![tactic(auto)]

mod device;
mod fuse;
mod memory;
mod past;

pub use device::{Disk, DiskFault, Relay};
pub use fuse::FuseDisk;
pub use memory::{Fill, MemDisk};
