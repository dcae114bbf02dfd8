//! The calls of a scanner, and what it reads (chapter Scanner, and common chapter).
//!
//! - [`call`] does a call of a control on its scanner.
//! - [`input`] passes on that a scanner reads a bar code, fails to, or is switched on or off.
//!
//! The layer above relies on this: a call is refused by its table, or changes the caller's input alone and gives no
//! order. Each control that has the scanner open and enabled gets its own copy of a scan. If memory runs out, nothing
//! changes.
#![tactic(auto)]

mod calls;
mod inputs;

pub use calls::call;
pub use inputs::input;
