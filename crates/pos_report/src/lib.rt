//! What a tool prints of totals files, and what codes mean. docs/reference/tool.md.
//!
//! [`answer`] answers a [`Question`] about the bytes of a totals file: a [`Finding`] and a text. [`explained`] is what
//! codes mean, of which [`standard_codes`] are those of the standard; [`explained_as`] is the same of one kind of code.
//!
//! The layer above relies on this: an answer is made of a survey of the bytes, so it says what a recovery would find in
//! them, or which rule they break. JSON is one line, which reads back as all that the survey has. The codes of the
//! standard have the numbers that a counter answers and sends.
#![tactic(auto)]

mod answers;
mod codes;
mod dump;
mod json;
mod load;
mod question;
mod salvage;
mod texts;

pub use answers::{AnswerFault, answer};
pub use codes::{Code, standard_codes};
pub use dump::difference_text;
pub use load::{LoadFault, load_totals};
pub use question::{Finding, Question};
pub use salvage::{Salvaged, salvage_totals};
pub use texts::{are_zero, explained, explained_as};
