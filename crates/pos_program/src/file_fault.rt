//! Why a file can't serve as a disk.

use std::io;
use thiserror::Error;

/// Why a file can't serve as a disk, or can't be formatted, moved to layout 2 or read, with what the system says of it.
#[derive(Clone, Copy, Debug, Error)]
pub enum FileFault {
    /// Memory ran out while it was opened or read.
    #[error("no memory to open it")]
    NoMemory,
    /// It isn't there, or can't be opened for reading and writing.
    #[error("can't be opened for reading and writing: {0}")]
    Open(io::Error),
    /// Another program has it open, or puts another file in its place.
    #[error("is in use: close the other program that has it open")]
    InUse,
    /// It changed from each reading of `kijolvar backup` to the next.
    #[error("changes each time it is read: try again, or end the program that writes to it")]
    Unsteady,
    /// The system gives no lock on it.
    #[error("can't be locked: {0}")]
    Lock(io::Error),
    /// The system doesn't report how long it is.
    #[error("its length can't be read: {0}")]
    Measure(io::Error),
    /// The folder that it is in can't be opened or synced.
    #[error("its folder can't be opened and synced: {0}")]
    Folder(io::Error),
    /// It is shorter than a disk and can't be lengthened.
    #[error("can't be lengthened: {0}")]
    Lengthen(io::Error),
    /// It was lengthened, and the device may not have it.
    #[error("can't be synced: {0}")]
    Sync(io::Error),
    /// The device may not have what was written to it before. An ISO has no syncs: copy the file from there.
    #[error("can't be synced: check the device that it is on")]
    NotSynced,
    /// Its bytes can't be read, or fewer than it is said to have.
    #[error("can't be read whole: check the device that it is on")]
    NotRead,
    /// It has totals already, which formatting would delete. They stay. A file that was too short has zeros at its end.
    #[error("is formatted already: remove it first if its totals may go")]
    Formatted,
    /// A read, a write or a sync failed while it was formatted.
    #[error("a read, a write or a sync failed while it was formatted")]
    Device,
    /// It has no totals that could be moved to layout 2: it isn't formatted, or it was cut off. Nothing was written.
    #[error("has no totals: it isn't formatted, or it was cut off")]
    Unformatted,
    /// Its totals are damaged. Nothing was written.
    #[error("its totals are damaged: keep it, and restore a copy, or salvage it")]
    Damaged,
    /// Its totals have layout 2 already. Nothing was written.
    #[error("has layout 2 already: there is nothing to do")]
    Moved,
    /// Memory ran out while its totals were to be moved to layout 2. Nothing was written.
    #[error("no memory to move it to layout 2: free some and move it again")]
    NoMemoryToMove,
    /// A read, a write or a sync failed while its totals were moved to layout 2. It has them by one layout or the
    /// other.
    #[error("a read, a write or a sync failed while it was moved to layout 2: restart the machine, and move it again")]
    Move,
    /// It isn't there, or can't be read.
    #[error("can't be read: {0}")]
    Unreadable(io::Error),
    /// It is shorter than a disk of totals, which has 327,680 bytes.
    #[error("is shorter than a totals file, which has 327680 bytes")]
    Short,
    /// Its totals are damaged: the bytes from this place on break a rule.
    #[error("its totals are damaged at byte {at}: {rule}")]
    Broken {
        /// The place of the first such byte, counted from 0.
        at: u64,
        /// The rule that they break, in words.
        rule: &'static str,
    },
}
