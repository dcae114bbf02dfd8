//! Want of memory, and why a peripheral was not attached or detached.
ghost use Rattle.std.specs.Prelude.{◌≡◌};

use std::alloc::AllocError;
use thiserror::Error;

/// Why a peripheral was not attached.
#[derive(Clone, Copy, Debug, PartialEq, Eq, Error)]
pub enum AttachFault {
    /// No device with a peripheral has the name.
    #[error("there is no such device")]
    Unknown,
    /// The peripheral is of another kind than the device.
    #[error("the peripheral is of another kind")]
    KindDiffers,
    /// The device already has a peripheral.
    #[error("the device has its peripheral")]
    InUse,
}

/// Why no peripheral was detached.
#[derive(Clone, Copy, Debug, PartialEq, Eq, Error)]
pub enum DetachFault {
    /// No device with a peripheral has the name.
    #[error("there is no such device")]
    Unknown,
    /// The device has no peripheral.
    #[error("the device has no peripheral")]
    Vacant,
    /// A control has the device open.
    #[error("a control has the device open")]
    InUse,
}

/// Memory ran out, and nothing has changed.
#[derive(Clone, Copy, Debug, PartialEq, Eq, Error)]
#[error("no memory")]
pub struct NoMemory;

impl From<AllocError> for NoMemory {
    ghost from_gives = { λ _ _. Unit {0} };

    fn from(_: AllocError) -> Self {
        NoMemory
    }
}
