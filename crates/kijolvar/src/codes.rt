//! The codes that the library answers to C (abi/README.md, "Codes").
ghost use Rattle.std.specs.Prelude.{◌≡◌};
ghost use Rattle.kijolvar.specs.Codes.{carried};

use pos_run::LineProgress;
use pos_streams::WriteFault;

/// The call did what it says.
pub(crate) const OK: u32 = 0;

/// Memory ran out, and nothing was done but lines before one that is held.
pub(crate) const NO_MEMORY: u32 = 1;

/// The profile is refused (docs/reference/profile.md).
pub(crate) const BAD_PROFILE: u32 = 2;

/// The room is too short for what would be written.
pub(crate) const SHORT: u32 = 3;

/// Memory ran out for the answer, of which a front is kept.
pub(crate) const CUT: u32 = 4;

/// The lines were carried out, and their answer waits until the host has done its errands.
pub(crate) const ERRANDS: u32 = 5;

/// Errands of earlier lines are left, so these lines were not carried out.
pub(crate) const UNDONE: u32 = 6;

/// The file isn't as the totals are: an errand failed, or memory ran out for one. The till can only be closed.
pub(crate) const DISK_FAILED: u32 = 7;

/// The file has totals already.
pub(crate) const FORMATTED: u32 = 8;

/// The file is shorter than a disk of totals.
pub(crate) const TOO_SMALL: u32 = 9;

/// The errand writes bytes at a place.
pub(crate) const WRITE: u32 = 10;

/// The errand makes what was written stay.
pub(crate) const SYNC: u32 = 11;

/// An order was written.
pub(crate) const ORDER: u32 = 12;

/// No device of the name has orders, or replies.
pub(crate) const NO_DEVICE: u32 = 13;

/// The profile isn't UTF-8, or is no TOML document.
pub(crate) const BAD_TEXT: u32 = 14;

/// The file isn't formatted.
pub(crate) const UNFORMATTED: u32 = 15;

/// The totals in the file are damaged.
pub(crate) const DAMAGED: u32 = 16;

/// The totals in the file have layout 2 already.
pub(crate) const MOVED: u32 = 17;

/// A control has an event to deliver.
pub(crate) const EVENT: u32 = 18;

/// No control has the name.
pub(crate) const NO_CONTROL: u32 = 19;

/// A line waits until the host has reported what became of an order.
pub(crate) const WAITS: u32 = 20;

/// There is no order to report, or none that has bytes.
pub(crate) const NO_ORDER: u32 = 21;

/// The settings of the hardware are out of their ranges.
pub(crate) const BAD_SETTINGS: u32 = 22;

/// Returns the code of lines that were carried out, all of them or as far as none waited: OK; SHORT if the room doesn't
/// hold their answer; CUT if memory ran out for it; WAITS if the next one waits, and NO_MEMORY if it found no memory.
pub(crate) fn code_of(outcome: Result<(), WriteFault>, holds: bool, left: LineProgress) -> u32
    ensures { result ≡ carried outcome holds left }
{
    match outcome {
        Ok(()) if !holds => SHORT,
        Ok(()) => match left {
            LineProgress::Printed => OK,
            LineProgress::Waits => WAITS,
            LineProgress::NoMemory => NO_MEMORY,
        },
        Err(WriteFault) => CUT,
    }
}
