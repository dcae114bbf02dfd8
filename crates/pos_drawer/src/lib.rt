//! The calls of a cash drawer, and what happens at it (chapter Cash Drawer).
//!
//! - [`call`] does a call of a control on its drawer.
//! - [`input`] passes on that a drawer is opened or closed, or switched on or off.
//!
//! The layer above relies on this: each call is refused by its table, or opens the drawer with exactly one order. Each
//! control that has the drawer open and enabled gets the events of what has changed, and no other. If memory runs out,
//! nothing changes.
#![tactic(auto)]

mod calls;
mod inputs;

pub use calls::call;
pub use inputs::input;
