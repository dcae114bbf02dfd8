//! The layouts of a disk. docs/reference/totals-file.md, "The layouts".
ghost use Rattle.std.specs.Prelude.{◌≡◌};
ghost use Rattle.pos_image.specs.Layout.{slot_size, longest, log_place, log_size, first_of};

use crate::slot::Slot;

/// How many bytes a disk has at least.
pub(crate) const SIZE: u64 = 327_680;

/// Where the second slot of layout 1 begins, in bytes. The first begins at 0.
pub(crate) const SECOND: u64 = 32_768;

/// Where the first slot of layout 2 begins, in bytes.
pub(crate) const THIRD: u64 = 65_536;

/// Where the second slot of layout 2 begins, in bytes.
pub(crate) const FOURTH: u64 = 196_608;

/// Where the sequence of a slot is, counted from its gate.
pub const SEQUENCE: u64 = 1;

/// Where the length of a slot's body is, counted from its gate.
pub const LENGTH: u64 = 9;

/// Where the body of a slot begins, counted from its gate.
pub const BODY: u64 = 13;

/// Where the log of a slot of layout 1 begins, with its gate.
pub(crate) const LOG: u64 = 16_384;

/// The byte of an open gate; every other byte is a closed one.
pub(crate) const OPEN: u8 = 0xA5;

/// The byte that is written to close a gate.
pub(crate) const CLOSED: u8 = 0;

/// How the slots are laid out on a disk.
#[derive(Clone, Copy, PartialEq, Eq)]
pub enum Layout {
    /// Layout 1, as a disk is formatted.
    Layout1,
    /// Layout 2, whose bodies and logs are longer.
    Layout2,
}

impl Layout {
    /// Returns how many bytes a slot has, its body and its log included.
    pub(crate) fn slot_size(self) -> u64
        ensures { result ≡ slot_size self }
    {
        match self {
            Layout::Layout1 => 32_768,
            Layout::Layout2 => 131_072,
        }
    }

    /// Returns where the log of a slot begins, counted from its gate: 16,384, in layout 2 81,920.
    pub fn log(self) -> u64
        ensures { result ≡ log_place self }
    {
        match self {
            Layout::Layout1 => LOG,
            Layout::Layout2 => 81_920,
        }
    }

    /// Returns how many bytes the log of a slot has: 16,384, in layout 2 49,152.
    pub fn log_size(self) -> usize
        ensures { result ≡ log_size self }
    {
        match self {
            Layout::Layout1 => 16_384,
            Layout::Layout2 => 49_152,
        }
    }

    /// Returns how many bytes the longest body has: 16,371, in layout 2 81,907.
    pub fn longest(self) -> u32
        ensures { result ≡ longest self }
    {
        match self {
            Layout::Layout1 => 16_371,
            Layout::Layout2 => 81_907,
        }
    }

    /// Returns its first slot.
    pub fn first(self) -> Slot
        ensures { result ≡ first_of self }
    {
        match self {
            Layout::Layout1 => Slot::First,
            Layout::Layout2 => Slot::Third,
        }
    }
}
