//! Simulated peripherals, to test a till without hardware.
//!
//! - [`PlainDrawer`], [`PlainScanner`], [`ScreenDisplay`] and [`RollPrinter`] are one of each kind.
//! - A [`Screen`] keeps a display's cells: a [`Window`] row by row, a [`Ring`] with rows that turn. A [`Roll`] is what
//!   a printer prints on.
//! - [`Flaky`] fails chosen orders of a peripheral, and [`Recorder`] counts all of them.
//!
//! The layer above relies on this: each peripheral meets the trait `Peripheral`, so it does what the standard says of
//! its kind. Orders to a drawer, a scanner and a display take no memory. Each also says before an order what it would
//! reply, by the trait `Preview`, which takes no memory. [`PrintPreview`] says what the order would print.
#![tactic(auto)]

mod flaky;
mod grid;
mod paper_needs;
mod plain_drawer;
mod plain_scanner;
mod power;
mod print_preview;
mod recorder;
mod ring;
mod ring_places;
mod roll;
mod roll_printer;
mod screen;
mod screen_display;
mod scroll;
mod tape;
mod text_layout;
mod window;

pub use flaky::Flaky;
pub use plain_drawer::PlainDrawer;
pub use plain_scanner::PlainScanner;
pub use print_preview::PrintPreview;
pub use recorder::Recorder;
pub use ring::Ring;
pub use roll::Roll;
pub use roll_printer::RollPrinter;
pub use screen::Screen;
pub use screen_display::{PlainDisplay, RingDisplay, ScreenDisplay};
pub use window::Window;
