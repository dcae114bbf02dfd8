//! What is asked of the bytes of a totals file, and what the answer is.

/// What is asked of the bytes of a totals file.
#[derive(Clone, Copy, PartialEq, Eq)]
pub enum Question<'a> {
    /// Whether they are sound; without a text if it is quiet.
    Check {
        /// Whether nothing is to be printed.
        quiet: bool,
    },
    /// What they hold, as lines of text or as JSON.
    Files {
        /// Whether as JSON.
        json: bool,
    },
    /// The bytes of one file among them.
    Cat {
        /// The file's name.
        name: &'a str,
        /// Whether in hex.
        hex: bool,
    },
    /// Their layout and their files, as lines of text that can be loaded again.
    Dump,
}

/// What a command found that did what it was asked.
#[derive(Clone, Copy, PartialEq, Eq)]
pub enum Finding {
    /// It is as it should be.
    Good,
    /// There are no totals.
    Nothing,
    /// The totals are damaged.
    Damaged,
}
