//! Why the words of the command line ask for nothing.

use crate::first_paragraph::FirstParagraph;
use std::fmt;
use std::fmt::Write;

/// The words that ask for something, as each fault of words prints them.
const USAGE: &str = "give no words, `run --profile FILE --disk FILE`, `format --disk FILE`, \
    `migrate --disk FILE` or `files --disk FILE`";

/// Why the program does nothing for the words of the command line.
#[derive(Drop)]
pub enum ChoiceFault {
    /// The words ask for nothing that it does.
    Words(WordsFault),
    /// Memory ran out while they were read.
    NoMemory,
}

/// Why words ask for nothing that the program does.
#[derive(Drop)]
pub enum WordsFault {
    /// They ask for help.
    Help,
    /// `clap` refuses them. Its error says why.
    Refused(clap::Error),
    /// One of them is not UTF-8.
    NotUtf8,
}

impl fmt::Display for WordsFault {
    fn fmt<W: fmt::Write>(&self, f: &mut fmt::Formatter<W>) -> fmt::Result {
        match self {
            WordsFault::Help => write!(f, "usage: {USAGE}"),
            WordsFault::Refused(error) => {
                let mut paragraph = FirstParagraph::over(f);
                write!(paragraph, "{error}")?;
                write!(f, ": {USAGE}")
            }
            WordsFault::NotUtf8 => write!(f, "a word is not UTF-8: {USAGE}"),
        }
    }
}

impl fmt::Display for ChoiceFault {
    fn fmt<W: fmt::Write>(&self, f: &mut fmt::Formatter<W>) -> fmt::Result {
        match self {
            ChoiceFault::Words(fault) => write!(f, "{fault}"),
            ChoiceFault::NoMemory => write!(f, "no memory"),
        }
    }
}
