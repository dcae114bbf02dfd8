//! A log of records after the current image of a totals disk (Hard Totals). Each record is a group of bytes that is
//! written whole or not at all. docs/reference/totals-file.md, "The log".
//!
//! [`Log`] opens the log and returns its groups, appends a record, and starts again with a new image or moves to layout
//! 2. [`LogFault`] says why it refuses, and [`find_damage`] where a log is damaged.
//!
//! The layer above relies on this: a crash at any moment leaves what was there before the call or what is there after
//! it. That holds for a record and for a new image. `Device` is reported only if the disk failed, and any other refusal
//! changes nothing.
#![tactic(auto)]

mod append;
mod fault;
mod log;
mod records;
mod relay;
mod renewal;

pub use fault::LogFault;
pub use log::Log;
pub use records::find_damage;
