//! The calls of a line display, and what happens at it (chapter Line Display).
//!
//! - [`call`] does a call of a control on its display.
//! - [`input`] passes on that a display is switched on or off.
//!
//! The layer above relies on this: each call is refused by its table, or gives exactly one order. The caller's cursor
//! moves only once that order is done, and always stays on the display. If memory runs out, nothing changes.
#![tactic(auto)]

mod calls;
mod inputs;

pub use calls::call;
pub use inputs::input;
