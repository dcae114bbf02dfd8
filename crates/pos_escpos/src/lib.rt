//! The bytes of receipt printers and customer displays, as pure functions: what the device machine does becomes bytes,
//! and a printer's replies become inputs.
//!
//! - [`SentReceipt`] sends what an order adds to a receipt, to an ESC/POS printer that prints exactly that.
//! - [`start_bytes`], [`DrawerKick`], [`NowStatus`], [`OrderStatus`] and [`job_bytes`] are the commands beside it.
//! - [`ReplyReader`] finds the replies of a printer in what it sends, and reports all that is no reply.
//! - [`printer_inputs`] and [`drawer_inputs`] are the inputs by which devices show what a status tells.
//! - [`rows_bytes`] sends the rows of a display that changed, to a CD5220 or ESC/POS display that shows them.
//!
//! What a printer and a display do with bytes is a definition of `specs/`. README.md beside this crate has the tables.
#![tactic(auto)]

mod begun;
mod bytes_fault;
mod display_bytes;
mod inputs;
mod laws;
mod printer_bytes;
mod printer_commands;
mod receipt_progress;
mod replies;
mod settings;
mod statuses;

pub use bytes_fault::BytesFault;
pub use display_bytes::{blank_cells, display_start_bytes, rows_bytes};
pub use inputs::{drawer_inputs, printer_inputs};
pub use laws::{losses_are_seen, orders_fit, replies_are_found};
pub use printer_bytes::receipt_bytes;
pub use printer_commands::{NowStatus, OrderStatus, job_bytes, start_bytes};
pub use receipt_progress::SentReceipt;
pub use replies::ReplyReader;
pub use settings::{
    CutSettings, Cutter, DisplayProtocol, DrawerKick, DrawerPin, LineSettings, PrinterSettings,
    SensorSettings,
};
pub use statuses::{PrinterReply, Received, Status};
