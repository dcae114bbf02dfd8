//! What the properties of a control are read from beside the control, and what `open` finds.

use crate::kind::Kind;
use crate::signs::Signs;

/// What the properties of a control report that the control itself doesn't keep.
#[derive(Clone, Copy, PartialEq, Eq)]
pub struct PropertyContext {
    /// Whether the control has claimed its device.
    pub is_claimed: bool,
    /// Whether the control is in a transaction of the totals.
    pub in_transaction: bool,
    /// What the device's peripheral is, if it has one.
    pub kind: Option<Kind>,
    /// What the device's peripheral shows of itself. Without a peripheral, it is on, and each other sign is false or
    /// good.
    pub signs: Signs,
    /// TotalsSize, in bytes.
    pub totals_size: usize,
    /// What is known of the totals' files; none while the totals are off.
    pub files: Option<FilesSummary>,
}

/// What is known of the files of totals that are ready (chapter Hard Totals).
#[derive(Clone, Copy, PartialEq, Eq)]
pub struct FilesSummary {
    /// FreeData, in bytes.
    pub free: usize,
    /// NumberOfFiles.
    pub count: usize,
}

/// The device that a control has open (common chapter, method open).
#[derive(Clone, Copy, PartialEq, Eq)]
pub enum OpenDevice {
    /// The device at this place among those that may have a peripheral, counted from 0 in the profile's order.
    At(usize),
    /// The Hard Totals, which have no peripheral.
    Totals,
}

/// What `open` finds under a name in the profile (common chapter).
#[derive(Clone, Copy, PartialEq, Eq)]
pub enum OpenTarget {
    /// No device of the control's category has the name.
    NotThere,
    /// A device has it, but the device has no peripheral.
    Vacant,
    /// This device.
    There(OpenDevice),
}
