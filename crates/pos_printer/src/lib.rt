//! The calls of a receipt printer, what happens at it, and the work on its output (chapter POS Printer).
//!
//! - [`call`] does a call of a control on its printer, or queues it.
//! - [`input`] passes on that a cover is moved, paper loaded, or a printer switched on or off.
//! - [`work`] does the first request that is queued for a printer.
//!
//! The layer above relies on this: each call is refused by its table, or gives or queues at most one order. Work gives
//! one order for each request, and reports its end in an event. If memory runs out, nothing changes.
#![tactic(auto)]

mod calls;
mod inputs;
mod output;

pub use calls::call;
pub use inputs::input;
pub use output::work;
