//! What the bytes of a totals disk hold, for whoever looks after it. docs/reference/totals-file.md;
//! docs/reference/console.md, "What a totals file holds".
//!
//! A [`Survey`] has the layout, the current image, the records of its log and the files. If the bytes break a rule of
//! the disk, [`SurveyFault`] has the place and the [`Rule`].
//!
//! The layer above relies on this: a survey says what a recovery of a store would find in the same bytes, and a refusal
//! names a rule that they do break.
#![tactic(auto)]

mod current_image;
mod fault;
mod image;
mod log;
mod records;
mod survey;
mod text;
mod words;

pub use fault::{Rule, SurveyFault};
pub use survey::Survey;
pub use words::words_of;
