//! Why a store refuses a call.
ghost use Rattle.std.specs.Prelude.{◌≡◌, ◌≢◌};
ghost use Rattle.pos_store.specs.Faults.{broken, ReportsImages, ReportsLog};

use pos_dir::DirectoryFault;
use pos_image::ImageFault;
use pos_log::LogFault;
use thiserror::Error;

/// Why a store refuses a call. A refusal changes nothing, except that `Device` in a commit or a migration turns the
/// store off.
#[derive(Clone, Copy, Debug, PartialEq, Eq, Error)]
pub enum StoreFault {
    /// The store is off: its files are not known.
    #[error("the store is off")]
    Off,
    /// A change of the group isn't applicable to the files: the fault of the first such change.
    #[error("the group is refused: {0}")]
    Refused(DirectoryFault),
    /// The group doesn't fit after the log, and the sequence is 18,446,744,073,709,551,615, the last one.
    #[error("the sequences have run out")]
    Exhausted,
    /// The disk has no image, or fewer than 327,680 bytes.
    #[error("the disk isn't formatted")]
    Unformatted,
    /// What is on the disk isn't sound: the gates, sequences and lengths don't fit together, or the current body spells
    /// no directory. Or a record after it doesn't fit, or spells no group that is applicable and not empty.
    #[error("the disk is damaged")]
    Damaged,
    /// Memory ran out.
    #[error("out of memory")]
    NoMemory,
    /// The disk failed.
    #[error("the disk failed")]
    Device,
    /// The disk that is to be moved to layout 2 has it already.
    #[error("the disk has layout 2 already")]
    AlreadyLayout2,
}

/// Returns the store's fault for a refusal by the images.
pub(crate) fn fault_of_images(fault: ImageFault) -> StoreFault
    requires new { fault ≢ ImageFault.AlreadyFormatted }
    requires short { fault ≢ ImageFault.TooLarge }
    ensures { ReportsImages fault result }
{
    match fault {
        ImageFault::Unformatted | ImageFault::TooSmall => StoreFault::Unformatted,
        ImageFault::Damaged => StoreFault::Damaged,
        ImageFault::Exhausted => StoreFault::Exhausted,
        ImageFault::Device => StoreFault::Device,
        ImageFault::NoMemory => StoreFault::NoMemory,
        ImageFault::AlreadyFormatted | ImageFault::TooLarge => unreachable!(),
    }
}

/// Returns the store's fault for a log that can't be opened.
pub(crate) fn fault_of_log(fault: LogFault) -> StoreFault
    requires { fault ≢ LogFault.Full }
    ensures { ReportsLog fault result }
{
    match fault {
        LogFault::Damaged => StoreFault::Damaged,
        LogFault::Device => StoreFault::Device,
        LogFault::NoMemory => StoreFault::NoMemory,
        LogFault::Full => unreachable!(),
    }
}

/// Returns the store's fault for a record whose group isn't applied: `Damaged`, unless memory ran out.
pub(crate) fn fault_of_group(fault: DirectoryFault) -> StoreFault
    ensures { result ≡ broken fault }
{
    match fault {
        DirectoryFault::NoMemory => StoreFault::NoMemory,
        _ => StoreFault::Damaged,
    }
}
