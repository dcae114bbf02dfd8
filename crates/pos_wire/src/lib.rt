//! What a host sends to real devices for a till's orders, and what their replies are for the till: pure functions.
//!
//! - [`WireSettings`] are what a host has to say of a device's hardware, as numbers.
//! - [`order_bytes`] returns the bytes of an order, by the simulated peripheral that stands for the device, its twin.
//! - [`read_reply`] finds the first reply of a printer in what came of it.
//! - [`reply_text`] returns a reply as lines: the inputs for the device, or the number of a job, and what it tells.
//!
//! The layer above relies on this: a printer, a drawer and a display that get an order's bytes do what the machine says
//! of the order, and nothing else. What they do with bytes is a definition of pos_escpos.
#![tactic(auto)]

mod frames;
mod orders;
mod replies;
mod reply_lines;
mod rows;
mod settings;
mod wire_fault;

pub use frames::JobEnd;
pub use orders::order_bytes;
pub use replies::{AwaitedReply, ReplyRead, read_reply};
pub use reply_lines::reply_text;
pub use settings::WireSettings;
pub use wire_fault::WireFault;
