//! A disk in memory over another disk, which needn't be honest.
//!
//! - [`MirrorDisk`] has the bytes of the disk below in memory. It makes each write and each sync on that disk before it
//!   answers, and reads from memory.
//! - [`MirrorFault`] says why a disk can't be mirrored.
//!
//! The layer above relies on this: a mirror is honest, whatever the disk below is. Its own relations say which calls of
//! the disk below each of its calls makes. What memory shows is at every moment what those calls make (`Makes`). Over
//! an honest disk, a crash leaves of that disk only what it may leave of the mirror.
#![tactic(auto)]

mod known;
mod mirror;
mod shown;

pub use mirror::{MirrorDisk, MirrorFault};
