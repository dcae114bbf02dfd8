//! The events that are held for a control until its application takes them (common chapter, event queue).
//!
//! [`EventQueue`] enqueues events and deletes them, and [`EventQueue::deliver`] returns the next one that may be
//! delivered, as a [`Delivery`].
//!
//! The layer above relies on this: the queue is a list of events in the standard's order, and each call does to it
//! exactly what the standard says. Memory is taken by [`EventQueue::room`] alone, before an event comes, so that no
//! event is lost.
#![tactic(auto)]

mod immediate;
mod immediate_event;
mod queue;

pub use queue::{Delivery, EventQueue};
