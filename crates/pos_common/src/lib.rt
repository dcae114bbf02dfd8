//! What the controls of every category have in common: their properties, their events, and the checks of their calls.
//!
//! - [`Control`] is an application's hold of a device. It has the common methods and properties, and its events.
//! - [`Claims`] is the list of claims: which control holds each device.
//! - [`execute`] does what a call comes to at a peripheral, and [`take_input`] passes an input on to one.
//!   [`hear_all`] and [`room_all`] serve those that work on output.
//!
//! The layer above relies on this: each method answers with the first refusal of its table, or does exactly what the
//! standard says. If memory runs out, nothing changes that an application sees.
#![tactic(auto)]

mod actions;
mod claims;
mod control;
mod controls;
mod inputs;
mod shown;
mod status;
mod writer;

pub use actions::execute;
pub use claims::Claims;
pub use control::{Control, WORK_EVENTS};
pub use controls::{hear_all, room_all};
pub use inputs::take_input;
