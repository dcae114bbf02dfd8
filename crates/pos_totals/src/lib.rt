//! The calls of Hard Totals on files, each change of which is one group on the disk (chapter Hard Totals).
//!
//! - [`Totals`] has the files of a disk with their handles, claims and transactions, and a method for each call.
//! - [`Question`], [`TotalsUpdate`] and its [`Edit`], and [`Arrangement`] are what a call asks for, each with its
//!   refusals.
//! - [`RecoveryFault`] says why a recovery finds no files. [`laws`] says what is true of all totals.
//!
//! The layer above relies on this: each call is answered by its table of refusals, and one that the table refuses
//! changes nothing. A crash at any moment leaves the files before a change or those after the whole of it. If the disk
//! fails, the totals are off until they are recovered.
#![tactic(auto)]

mod arrangements;
mod calls;
mod changes;
mod checks;
mod claims;
mod commits;
mod edits;
mod fault;
mod files;
mod handles;
pub mod laws;
mod numbers;
mod questions;
mod recoveries;
mod relay;
mod totals;
mod transaction_calls;
mod transactions;
mod update;

pub use arrangements::Arrangement;
pub use edits::Edit;
pub use fault::RecoveryFault;
pub use questions::Question;
pub use totals::Totals;
pub use update::TotalsUpdate;
