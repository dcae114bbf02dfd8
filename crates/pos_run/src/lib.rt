//! Runs of scripts over the devices of a shop counter, with spares beside them (docs/reference/console.md).
//!
//! - [`run`] runs a script from a source over a counter, and [`run_given_lines`] lines that a caller has whole.
//!   [`carry_on`] runs lines up to one that waits for the host of a driven device.
//! - [`run_over_profile`] and [`simulate_profile`] make the counter and the [`Spares`] of a profile, with a simulated
//!   peripheral for each entry.
//! - [`ScriptReader`] and [`AnswerWriter`] keep to their limits, and [`Names`] has the numbers of a script's controls.
//!
//! The layer above relies on this: each line is run whole before the next, as steps of the device machine, and
//! prints their responses. A crash at any moment leaves what it may leave in a step of these lines.
#![tactic(auto)]

mod answers;
mod devices;
mod given_lines;
mod line_texts;
mod lines;
mod mount;
mod names;
mod profile_run;
mod script_reader;
mod scripts;
mod session;
mod simulation;
mod spares;
mod waiting_lines;
mod wrapped;

pub use answers::AnswerWriter;
pub use devices::end_counter;
pub use given_lines::run_given_lines;
pub use mount::{AsSimulated, Mount};
pub use names::Names;
pub use profile_run::{run_over_profile, simulate_profile};
pub use script_reader::ScriptReader;
pub use scripts::{RunFault, run};
pub use spares::Spares;
pub use waiting_lines::{LineProgress, carry_on};
pub use wrapped::Wrapped;
