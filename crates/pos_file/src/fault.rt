//! Why a file can't serve as a disk.

use std::fs::TryLockError;
use std::io;
use thiserror::Error;

/// Why a file can't serve as a disk.
#[derive(Clone, Copy, Debug, Error)]
pub enum DiskFileFault {
    /// Another program has it open.
    #[error("another program has it open")]
    InUse,
    /// The system gives no lock on it.
    #[error("it can't be locked: {0}")]
    Lock(io::Error),
    /// The system doesn't report its length.
    #[error("its length can't be read: {0}")]
    Measure(io::Error),
    /// It can't be lengthened.
    #[error("it can't be lengthened: {0}")]
    Lengthen(io::Error),
    /// It was lengthened, but the device may not have it.
    #[error("it can't be synced: {0}")]
    Sync(io::Error),
}

impl DiskFileFault {
    ghost use Rattle.std.specs.Prelude.{◌≡◌};
    ghost use Rattle.pos_file.specs.Answers.{lock_fault};

    /// Returns why a file isn't locked, by the answer to the call for a lock.
    pub fn of_lock(cause: TryLockError) -> DiskFileFault
        ensures { result ≡ lock_fault cause }
    {
        match cause {
            TryLockError::WouldBlock => DiskFileFault::InUse,
            TryLockError::Error(cause) => DiskFileFault::Lock(cause),
        }
    }
}
