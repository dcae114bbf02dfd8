//! Why a recovery finds no files.
ghost use Rattle.std.specs.Prelude.{◌≡◌};
ghost use Rattle.std.specs.Result.{result_ok};
ghost use Rattle.pos_totals.specs.Recoveries.{code_of};

use pos_service::{Code, NoMemory};
use thiserror::Error;

/// Why a recovery finds no files. The totals are still off, and the disk has what it had.
#[derive(Clone, Copy, Debug, PartialEq, Eq, Error)]
pub enum RecoveryFault {
    /// The disk has no image, or fewer than 327,680 bytes.
    #[error("the disk isn't formatted")]
    Unformatted,
    /// The disk is damaged.
    #[error("the disk is damaged")]
    Damaged,
    /// There are more files than handles left.
    #[error("the file handles have run out")]
    Handles,
    /// Memory ran out.
    #[error("out of memory")]
    NoMemory,
    /// The disk failed.
    #[error("the disk failed")]
    Device,
}

impl RecoveryFault {
    /// Returns the result code of the call that asked for the recovery: E_NOHARDWARE if the disk isn't formatted, else
    /// E_FAILURE.
    ///
    /// # Errors
    ///
    /// [`NoMemory`] if memory ran out, which has no result code.
    pub fn code(self) -> Result<Code, NoMemory>
        ensures { result_ok result ≡ code_of self }
    {
        match self {
            RecoveryFault::Unformatted => Ok(Code::NoHardware),
            RecoveryFault::Damaged | RecoveryFault::Handles | RecoveryFault::Device => {
                Ok(Code::Failure)
            }
            RecoveryFault::NoMemory => Err(NoMemory),
        }
    }
}
