//! Why a log refuses a call.
ghost use Rattle.std.specs.Prelude.{◌≡◌};
ghost use Rattle.pos_log.specs.declared.fault.LogFault.TheVariants.{NoMemory};

use std::alloc::AllocError;
use thiserror::Error;

/// Why a log refuses a call. docs/reference/totals-file.md, "The log".
#[derive(Clone, Copy, Debug, PartialEq, Eq, Error)]
pub enum LogFault {
    /// The record and the gate after it don't fit.
    #[error("the log is full")]
    Full,

    /// A record that is open doesn't fit into the log.
    #[error("the log is damaged")]
    Damaged,

    /// The disk failed.
    #[error("the disk failed")]
    Device,

    /// Memory ran out.
    #[error("memory ran out")]
    NoMemory,
}

impl From<AllocError> for LogFault {
    ghost from_gives = { λ _ fault. fault ≡ NoMemory };

    fn from(_: AllocError) -> Self {
        LogFault::NoMemory
    }
}
