//! Runs of scripts for people, and what each line of them is told with. docs/reference/tool.md.
//!
//! [`run`] runs scripts over a counter that is simulated for a profile, and [`run_typed`] what is typed, line by line.
//! Both print the answers in an [`AnswerStyle`]: with the numbers of the lines, the names of codes, and the [`reason`]
//! of each `bad line`.
//!
//! The layer above relies on this: what is told is made of the answers of one run of the device machine, in which each
//! line was carried out whole before the next.
#![tactic(auto)]

mod answer_texts;
mod conversation;
mod differences;
mod input;
mod names;
mod paint;
mod profile_run;
mod reasons;
mod runs;
mod scripts;
mod trials;
mod xml;

pub use answer_texts::{AnswerFormat, AnswerStyle, write_text};
pub use paint::painted;
pub use reasons::reason;
pub use runs::{RunFault, profile_at, run, run_typed};
pub use scripts::ScriptsFault;
pub use trials::{ProgressReport, Trial, TrialFault, failures, tally, try_scripts};
pub use xml::{escapes_markup, junit};
