//! Why there are no bytes or no text for a device.
ghost use Rattle.std.specs.Prelude.{◌≡◌};

use pos_service::NoMemory;
use std::alloc::AllocError;
use thiserror::Error;

/// Why there are no bytes or no text for a device.
#[derive(Clone, Copy, Debug, PartialEq, Eq, Error)]
pub enum WireFault {
    /// Memory ran out.
    #[error("no memory")]
    NoMemory,
    /// A setting of the device is out of its range.
    #[error("a setting is out of its range")]
    BadSettings,
    /// The device has no bytes for it: it doesn't do such orders or wouldn't carry this one out, or it has no replies.
    #[error("there are no bytes for it")]
    NoBytes,
}

impl From<AllocError> for WireFault {
    ghost use Rattle.pos_wire.specs.declared.wire_fault.WireFault.TheVariants.{NoMemory};

    ghost from_gives = { λ _ fault. fault ≡ NoMemory };

    fn from(_: AllocError) -> Self {
        WireFault::NoMemory
    }
}

impl From<NoMemory> for WireFault {
    ghost use Rattle.pos_wire.specs.declared.wire_fault.WireFault.TheVariants.{NoMemory};

    ghost from_gives = { λ _ fault. fault ≡ NoMemory };

    fn from(_: NoMemory) -> Self {
        WireFault::NoMemory
    }
}
