//! Peripherals whose orders wait for what a host reports of them.
//!
//! - [`Driven`] is a simulated peripheral that stands for the host's. Once it is driven, it keeps an order for the host
//!   and answers that there is no memory, until the host has reported what became of the order and it is given again.
//! - [`Awaits`] tells if such a peripheral waits, and [`Progress`] how far its host is with an order. [`Hosted`] is
//!   what the host does with it: it alone takes and reports orders.
//! - [`Preview`] says before an order what a peripheral would reply, and [`Tears`] takes printed paper away.
//!
//! The layer above relies on this: an order that waits has done nothing, and want of memory forgets no report. A driven
//! peripheral answers an order with `Done` only if the host has reported that this order is done.
#![tactic(auto)]

mod awaits;
mod courses;
mod driven;
mod hosted;
mod paper;
mod preview;

pub use awaits::Awaits;
pub use courses::{Course, Progress};
pub use driven::Driven;
pub use hosted::Hosted;
pub use paper::Tears;
pub use preview::Preview;
