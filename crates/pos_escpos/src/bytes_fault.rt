//! Why there are no bytes for a device.
ghost use Rattle.std.specs.Prelude.{◌≡◌};

use std::alloc::AllocError;
use thiserror::Error;

/// Why there are no bytes for a device.
#[derive(Clone, Copy, Debug, PartialEq, Eq, Error)]
pub enum BytesFault {
    /// What is to be shown or printed doesn't fit the device, or has a byte that is no character.
    #[error("it doesn't fit the device")]
    Misfit,
    /// Memory ran out.
    #[error("no memory")]
    NoMemory,
}

impl From<AllocError> for BytesFault {
    ghost use Rattle.pos_escpos.specs.declared.bytes_fault.BytesFault.TheVariants.{NoMemory};

    ghost from_gives = { λ _ fault. fault ≡ NoMemory };

    fn from(_: AllocError) -> Self {
        BytesFault::NoMemory
    }
}
