//! Why a file gives no profile.

use pos_profile::{Mistake, Place, Text};
use std::{fmt, io};

/// Why a file gives no profile, for the profile's writer.
#[derive(Drop)]
pub enum ProfileFileFault {
    /// It can't be read.
    Unreadable(io::Error),
    /// The bytes of this line are not UTF-8.
    NotUtf8 {
        /// The line.
        line: usize,
    },
    /// The text is no TOML document.
    NotToml {
        /// The line, counted from 1, where reading it stopped.
        line: usize,
        /// Why it stopped.
        error: toml::de::Error,
    },
    /// Something in the document isn't sound. The mistake says what and where.
    Unsound(Mistake),
    /// Two devices have this name.
    Duplicate(Text),
    /// Memory ran out while it was read.
    NoMemory,
}

impl fmt::Display for ProfileFileFault {
    fn fmt<W: fmt::Write>(&self, f: &mut fmt::Formatter<W>) -> fmt::Result {
        match self {
            ProfileFileFault::Unreadable(cause) => write!(f, "can't be read: {cause}"),
            ProfileFileFault::NotUtf8 { line } => write!(f, "line {line}: not UTF-8"),
            ProfileFileFault::NotToml { line, error } => {
                let why = error.message();
                write!(f, "line {line}: not TOML: {why}")
            }
            ProfileFileFault::Unsound(mistake) => match mistake.place {
                Place::Root => write!(f, "{}", mistake.reason),
                Place::Listed(..) => write!(f, "{mistake}"),
            },
            ProfileFileFault::Duplicate(name) => write!(f, "two devices have the name {name}"),
            ProfileFileFault::NoMemory => write!(f, "no memory to read it"),
        }
    }
}
