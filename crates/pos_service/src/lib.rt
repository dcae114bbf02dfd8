//! The vocabulary of a shop counter's device layer by UnifiedPOS 1.16, and the trait that a peripheral meets.
//!
//! - [`Call`], [`Property`], [`Answer`] and [`Code`] are what an application asks and gets, and [`Event`] is what it is
//!   sent.
//! - [`Peripheral`] is what serves a device: it takes an [`Order`], gives a [`Reply`], and takes an [`Input`].
//! - [`Request`] and [`Response`] are what a counter is asked and what it answers.
//!
//! The layers above share these types, and the definitions in `specs/` of what the standard asks of each call. A driver
//! meets the clauses of [`Peripheral`]; then each call on its device follows the standard.
#![tactic(auto)]

mod action;
mod answer;
mod call;
mod category;
pub mod claims;
mod code;
mod context;
pub mod display_text;
mod event;
mod faults;
mod input;
mod kind;
mod needs;
pub mod numbers;
mod order;
mod peripheral;
mod peripheral_box;
mod plant;
mod property;
pub mod receipt_text;
mod request;
mod signs;
pub mod words;

pub use action::{Action, ControlUpdate};
pub use answer::{Answer, Value, WorkResult};
pub use call::{Call, CallRow};
pub use category::Category;
pub use code::{Code, EPTR_COVER_OPEN, EPTR_REC_EMPTY, ETOT_NOROOM};
pub use context::{FilesSummary, OpenDevice, OpenTarget, PropertyContext};
pub use event::{ErrorReply, Event, Locus};
pub use faults::{AttachFault, DetachFault, NoMemory};
pub use input::{Input, Scan, Taken};
pub use kind::{Kind, chars_of, columns_of, rows_of};
pub use needs::{ClaimNeed, Needs};
pub use order::{Argument, Order, Reply};
pub use peripheral::{Ends, Peripheral, park_and_end};
pub use peripheral_box::PeripheralBox;
pub use plant::{DisplayCells, Mechanism, Plant, Receipt, Snapshot};
pub use pos_bytes::{Bytes, LentBytes};
pub use property::{Property, PropertyRow, Settings};
pub use request::{Request, Response};
pub use signs::{PaperLevel, Signs};
pub use words::is_device_name;
