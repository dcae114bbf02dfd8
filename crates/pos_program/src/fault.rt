//! What the program ends with.
ghost use Rattle.std.specs.Prelude.{◌≡◌};
ghost use Rattle.pos_program.specs.Faults.{choice_status, disk_status, profile_status, status, status_of};

use crate::choice_fault::ChoiceFault;
use crate::file_fault::FileFault;
use crate::one_line::OneLine;
use crate::profile_fault::ProfileFileFault;
use std::fmt;
use std::fmt::Write;

/// Why the program ends with another status than 0. A fault prints as one line, whatever characters the paths and the
/// file have. docs/reference/console.md, "The program".
#[derive(Drop)]
pub enum Fault<'a> {
    /// The words ask for nothing that the program does, or memory ran out while they were read.
    Words(ChoiceFault),
    /// The profile's file gives no profile.
    Profile {
        /// Its path, as its word stood.
        path: &'a str,
        /// Why.
        cause: ProfileFileFault,
    },
    /// The disk's file can't serve, or can't be formatted, moved to layout 2 or read.
    Disk {
        /// Its path, as its word stood.
        path: &'a str,
        /// Why.
        cause: FileFault,
    },
    /// The script can't be read.
    Read,
    /// The answers, or what a file holds, can't be written.
    Write,
    /// Memory ran out.
    NoMemory,
}

// Returns the status of a fault of the words.
fn choice_status(fault: &ChoiceFault) -> u8
    ensures { result ≡ choice_status fault.now }
{
    match fault {
        ChoiceFault::NoMemory => 6,
        _ => 2,
    }
}

// Returns the status of a profile's fault.
fn profile_status(cause: &ProfileFileFault) -> u8
    ensures { result ≡ profile_status cause.now }
{
    match cause {
        ProfileFileFault::NoMemory => 6,
        _ => 3,
    }
}

// Returns the status of a fault of the disk's file.
fn disk_status(cause: &FileFault) -> u8
    ensures { result ≡ disk_status cause.now }
{
    match cause {
        FileFault::NoMemory | FileFault::NoMemoryToMove => 6,
        _ => 4,
    }
}

impl Fault<'_> {
    /// Returns the status that the program ends with:
    ///
    /// - 2 for its words.
    /// - 3 for the profile.
    /// - 4 for the disk's file.
    /// - 5 if the script can't be read or the answers can't be written.
    /// - 6 if memory ran out, for whichever of them.
    pub fn status(&self) -> u8
        ensures { result ≡ status self.now }
    {
        match self {
            Fault::Words(fault) => choice_status(fault),
            Fault::Profile { cause, .. } => profile_status(cause),
            Fault::Disk { cause, .. } => disk_status(cause),
            Fault::Read | Fault::Write => 5,
            Fault::NoMemory => 6,
        }
    }
}

/// Returns the status that the program ends with: 0 if nothing was at fault, and otherwise the fault's, 2 to 6.
pub fn status_of(outcome: &Result<(), Fault<'_>>) -> u8
    ensures { result ≡ status_of outcome.now }
{
    match outcome {
        Ok(()) => 0,
        Err(fault) => fault.status(),
    }
}

impl fmt::Display for Fault<'_> {
    fn fmt<W: fmt::Write>(&self, f: &mut fmt::Formatter<W>) -> fmt::Result {
        let mut line = OneLine::over(f);
        match self {
            Fault::Words(fault) => write!(line, "{fault}"),
            Fault::Profile { path, cause } => write!(line, "{path}: {cause}"),
            Fault::Disk { path, cause } => write!(line, "{path}: {cause}"),
            Fault::Read => write!(line, "the script can't be read"),
            Fault::Write => write!(line, "the answers can't be written"),
            Fault::NoMemory => write!(line, "no memory"),
        }
    }
}
