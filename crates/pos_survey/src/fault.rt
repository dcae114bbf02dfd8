//! Why no survey is made.
ghost use Rattle.std.specs.Prelude.{◌≡◌};
ghost use Rattle.pos_survey.specs.declared.fault.SurveyFault.TheVariants.{NoMemory};

use pos_dir::{DirectoryFault, Flaw};
use std::alloc::AllocError;
use thiserror::Error;

/// A rule that the bytes of a disk break: one of those of docs/reference/totals-file.md, "Opening and recovery", under
/// Damaged.
#[derive(Clone, Copy, Debug, PartialEq, Eq)]
pub enum Rule {
    /// Both slots of the disk's layout are open, with the same sequence.
    SameSequence,
    /// The length of the current body is above 16,371, in layout 2 above 81,907.
    LongBody,
    /// The current body isn't the spelling of a list of files: it breaks this rule of the spelling.
    NoFiles(Flaw),
    /// The log has an open gate whose record doesn't end within the slot, with the gate after it.
    LongRecord,
    /// A record spells no group.
    NoGroup,
    /// A record spells an empty group.
    EmptyGroup,
    /// A record spells a group that isn't applicable: its first change that isn't has this fault.
    NotApplicable(DirectoryFault),
}

/// Why no survey is made of the bytes of a disk.
#[derive(Clone, Copy, Debug, PartialEq, Eq, Error)]
pub enum SurveyFault {
    /// Memory ran out.
    #[error("memory ran out")]
    NoMemory,
    /// There are fewer than 327,680 bytes.
    #[error("the disk is too small")]
    TooSmall,
    /// The gates of all four slots are closed.
    #[error("the disk isn't formatted")]
    Unformatted,
    /// The bytes from this place on, counted from the first byte of the disk, break this rule.
    #[error("the disk is damaged at byte {0}")]
    Damaged(u64, Rule),
}

impl From<AllocError> for SurveyFault {
    ghost from_gives = { λ _ fault. fault ≡ NoMemory };

    fn from(_: AllocError) -> Self {
        SurveyFault::NoMemory
    }
}
