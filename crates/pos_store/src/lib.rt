//! The files of a totals disk, changed by whole groups (chapter Hard Totals).
//!
//! - [`Store`] recovers the files of a disk, commits groups of changes to them, and moves them to layout 2.
//! - [`Mode`] says whether the files are known, and [`StoreFault`] why a call is refused.
//! - [`limits_of`] returns how much a disk of a layout holds. [`laws`] says what is true of each store.
//!
//! The layer above relies on this: a crash at any moment leaves the files before a group or those after all of it. If
//! the disk fails, the store is off, and a recovery finds either. Any other refusal changes nothing.
#![tactic(auto)]

mod commits;
mod fault;
pub mod laws;
mod medium;
mod migrations;
mod recoveries;
mod relay;
mod store;

pub use fault::StoreFault;
pub use recoveries::limits_of;
pub use store::{Mode, Store};
