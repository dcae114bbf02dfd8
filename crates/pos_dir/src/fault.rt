//! Why a directory or a group refuses a call.
ghost use Rattle.std.specs.Prelude.{◌≡◌};
ghost use Rattle.pos_dir.specs.declared.fault.DirectoryFault.TheVariants.{NoMemory};

use std::alloc::{AllocError, AllocFailed};
use thiserror::Error;

/// Why a directory or a group refuses a call. Nothing has changed then.
#[derive(Clone, Copy, Debug, PartialEq, Eq, Error)]
pub enum DirectoryFault {
    /// No file has the index.
    #[error("no file has this index")]
    NoFile,
    /// A file has the name.
    #[error("a file has this name")]
    Exists,
    /// A range passes the end of the file, or the bytes of a Write are too many.
    #[error("the range passes the end of the file")]
    Range,
    /// The files would be too many or too large, or the changes of a group too many.
    #[error("there is no room")]
    NoRoom,
    /// A name isn't 1 to 10 bytes of 0x20 to 0x7F.
    #[error("the name is bad")]
    BadName,
    /// Memory ran out.
    #[error("out of memory")]
    NoMemory,
    /// Bytes spell no directory, or no group.
    #[error("the bytes are malformed")]
    Malformed,
}

impl From<AllocError> for DirectoryFault {
    ghost from_gives = { λ _ fault. fault ≡ NoMemory };

    fn from(_error: AllocError) -> DirectoryFault {
        DirectoryFault::NoMemory
    }
}

impl<T: Drop> From<AllocFailed<T>> for DirectoryFault {
    ghost from_gives = { λ _ fault. fault ≡ NoMemory };

    fn from(_error: AllocFailed<T>) -> DirectoryFault {
        DirectoryFault::NoMemory
    }
}
