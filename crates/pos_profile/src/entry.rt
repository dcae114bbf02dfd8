//! An entry of a profile, and the two lists of entries.
ghost use Rattle.std.specs.Prelude.{◌≡◌};
ghost use Rattle.pos_profile.specs.Kinds.{categories_of, kind_of};
ghost use Rattle.pos_profile.specs.Tables.{key_of};

use crate::category::{DEVICE_CATEGORIES, SPARE_CATEGORIES, kind_with};
use crate::text::Text;
use pos_service::{Category, Kind};

/// A device of the profile, or a spare. A number that its category doesn't have is 0, and a spare's name is empty.
///
/// By `ring`, `flaky` and `recorded` a device differs from a plain one; Hard Totals have none of them.
#[derive(Drop)]
pub struct Entry {
    /// The name by which controls open it: 1 to 16 ASCII letters, digits or hyphens.
    pub name: Text,
    /// Its category.
    pub category: Category,
    /// The rows of a display, 1 to 8.
    pub rows: u32,
    /// The columns of a display, 1 to 80.
    pub columns: u32,
    /// The characters of a printer's line, 1 to 255.
    pub chars: u32,
    /// The lines of paper that a printer begins with, 0 to 100,000.
    pub lines: u32,
    /// How many lines of paper are left when a printer's paper is near its end, 0 to 100,000.
    pub near: u32,
    /// Whether the rows of a display are a ring, of which a scroll by one row moves no cell.
    pub ring: bool,
    /// Which orders of the device fail, counted from 1: the number of the first, and how many, each 0 to 1,000,000.
    /// None fails if it is 0 of them, or there is no such pair.
    pub flaky: Option<(u32, u32)>,
    /// Whether the orders of the device are counted.
    pub recorded: bool,
}

impl Entry {
    /// Returns what a peripheral for it has to be, or `None` for Hard Totals, which have no peripheral.
    pub fn kind(&self) -> Option<Kind>
        ensures { result ≡ kind_of self.now }
    {
        kind_with(self.category, self)
    }
}

/// The list of a profile that an entry is in.
#[derive(Clone, Copy, PartialEq, Eq)]
pub enum Role {
    /// A device of the counter.
    Device,
    /// A peripheral that may be attached in place of another.
    Spare,
}

impl Role {
    /// Returns the key of the list at the root.
    pub fn key(self) -> &'static str
        ensures { result.now ≡ key_of self }
    {
        match self {
            Role::Device => "device",
            Role::Spare => "spare",
        }
    }

    /// Returns the categories that an entry of the list may have, as a user reads them.
    pub fn categories(self) -> &'static str
        ensures { result.now ≡ categories_of self }
    {
        match self {
            Role::Device => DEVICE_CATEGORIES,
            Role::Spare => SPARE_CATEGORIES,
        }
    }
}
