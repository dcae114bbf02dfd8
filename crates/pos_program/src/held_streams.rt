//! Standard input, output and error that are closed.

use std::fs::File;
use std::io;
use std::rt::Files;

/// Keeps files from being opened as standard input, output or error where these are closed: a totals file would be read
/// as a script then, or get answers. Until it ends, the root folder is open in place of each that is closed, so that
/// reading and writing them fail.
#[derive(Drop)]
pub struct HeldStreams {
    first: io::Result<File>,
    second: io::Result<File>,
    third: io::Result<File>,
}

impl HeldStreams {
    /// Holds the streams that are closed. Take it before any file is opened.
    pub fn hold<R: Files<File = File>>(files: &R) -> HeldStreams {
        HeldStreams {
            first: File::open(files, "/"),
            second: File::open(files, "/"),
            third: File::open(files, "/"),
        }
    }
}
