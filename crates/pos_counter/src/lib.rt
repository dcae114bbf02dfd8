//! The controls of all applications and the devices that they share: each request is a step of the device machine.
//!
//! - [`Counter`] has the controls, the claims, the devices and the totals. Its methods are the requests, and [`Ended`]
//!   is what is left of it.
//! - [`ControlFault`], [`InputFault`], [`WorkFault`] and [`SnapshotFault`] say why a request did nothing.
//! - [`laws`] and [`moves`] are what follows for each run of a counter, above all what a crash leaves.
//!
//! The layer above relies on this: each method is a step of the machine, so each list of calls is a run of it. If
//! memory runs out, nothing changes. A crash leaves the files of Hard Totals after a prefix of their history.
#![tactic(auto)]

mod calls;
mod control_calls;
mod counter;
mod devices;
mod exchange;
mod faults;
mod host_tally;
mod hosts;
mod inputs;
pub mod laws;
pub mod moves;
mod output;
mod paper;
mod properties;
mod relay;
pub mod responses;
mod totals_calls;

pub use counter::{Counter, Ended};
pub use faults::{ControlFault, InputFault, SnapshotFault, WorkFault};
