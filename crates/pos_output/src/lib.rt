//! The output that a control has still to do, oldest first (common chapter, asynchronous output).
//!
//! [`OutputQueue`] queues orders and gives each its OutputID. It returns the one to do now, and keeps one that has
//! failed until it is retried or cleared. [`PutFault`] says why an order is not queued.
//!
//! The layer above relies on this: OutputIDs rise by one and are never given twice, requests are done in their order,
//! and a refusal changes nothing.
#![tactic(auto)]

mod queue;

pub use queue::{OutputQueue, PutFault};
