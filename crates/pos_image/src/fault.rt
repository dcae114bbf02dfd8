//! Why images refuse a call.
ghost use Rattle.std.specs.Prelude.{◌≡◌};
ghost use Rattle.pos_image.specs.declared.fault.ImageFault.TheVariants.{NoMemory, Device};

use pos_disk::DiskFault;
use std::alloc::AllocError;
use thiserror::Error;

/// Why images on a disk refuse a call. docs/reference/totals-file.md, "Opening and recovery".
#[derive(Clone, Copy, Debug, PartialEq, Eq, Error)]
pub enum ImageFault {
    /// No slot of the disk is open.
    #[error("the disk isn't formatted")]
    Unformatted,

    /// A gate of the disk reads as open.
    #[error("the disk is formatted already")]
    AlreadyFormatted,

    /// The gates, the sequences or the length on the disk don't fit together.
    #[error("the disk is damaged")]
    Damaged,

    /// A body has more than 16,371 bytes, in layout 2 more than 81,907.
    #[error("the body is too large")]
    TooLarge,

    /// The current sequence is 18,446,744,073,709,551,615, the last one.
    #[error("the sequences have run out")]
    Exhausted,

    /// The disk failed.
    #[error("the disk failed")]
    Device,

    /// Memory ran out.
    #[error("memory ran out")]
    NoMemory,

    /// The disk has fewer than 327,680 bytes.
    #[error("the disk is too small")]
    TooSmall,
}

impl From<AllocError> for ImageFault {
    ghost from_gives = { λ _ fault. fault ≡ NoMemory };

    fn from(_: AllocError) -> Self {
        ImageFault::NoMemory
    }
}

impl From<DiskFault> for ImageFault {
    ghost from_gives = { λ _ fault. fault ≡ Device };

    fn from(_: DiskFault) -> Self {
        ImageFault::Device
    }
}
