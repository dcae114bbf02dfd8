//! What a profile says of each category.
ghost use Rattle.std.specs.Prelude.{◌≡◌, IfOk};
ghost use Rattle.pos_profile.specs.Categories.{is_totals};
ghost use Rattle.pos_profile.specs.Kinds.{built_entry, kind_with};

use crate::entry::Entry;
use crate::entry_reader::{NO_NUMBERS, Numbers, named_entry};
use crate::variation::PLAIN;
use pos_service::{Category, Kind, NoMemory};
use std::alloc::Global;

/// All categories.
pub(crate) const ALL_CATEGORIES: [Category; 5] = [
    Category::CashDrawer,
    Category::Scanner,
    Category::LineDisplay,
    Category::PosPrinter,
    Category::HardTotals,
];

/// The categories of devices, as a user sees them.
pub(crate) const DEVICE_CATEGORIES: &str =
    "CashDrawer, Scanner, LineDisplay, POSPrinter or HardTotals";

/// The categories of spares: those that have a peripheral.
pub(crate) const SPARE_CATEGORIES: &str = "CashDrawer, Scanner, LineDisplay or POSPrinter";

/// Returns whether it is Hard Totals, whose device has no peripheral.
pub(crate) fn is_totals(category: Category) -> bool
    ensures { result ≡ is_totals category }
{
    matches!(category, Category::HardTotals)
}

/// Returns the kind of a category's devices with the numbers of an entry, or `None` for Hard Totals.
pub(crate) fn kind_with(category: Category, entry: &Entry) -> Option<Kind>
    ensures { result ≡ kind_with category entry.now }
{
    match category {
        Category::CashDrawer => Some(Kind::Drawer),
        Category::Scanner => Some(Kind::Scanner),
        Category::LineDisplay => Some(Kind::Display {
            rows: entry.rows,
            columns: entry.columns,
        }),
        Category::PosPrinter => Some(Kind::Printer {
            chars: entry.chars,
            near: entry.near,
        }),
        Category::HardTotals => None,
    }
}

/// Returns the device of a category in the built-in profile.
pub(crate) fn built_device(alloc: Global, category: Category) -> Result<Entry, NoMemory>
    ensures { IfOk result (λ entry. entry ≡ built_entry category) }
{
    let size = Numbers {
        rows: 2,
        columns: 4,
        ..NO_NUMBERS
    };
    let roll = Numbers {
        chars: 8,
        lines: 5,
        near: 2,
        ..NO_NUMBERS
    };
    let (name, numbers) = match category {
        Category::CashDrawer => ("d1", NO_NUMBERS),
        Category::Scanner => ("s1", NO_NUMBERS),
        Category::LineDisplay => ("p1", size),
        Category::PosPrinter => ("r1", roll),
        Category::HardTotals => ("t1", NO_NUMBERS),
    };
    named_entry(alloc, category, name, numbers, PLAIN)
}

/// The category of the built-in profile's spare.
pub(crate) const SPARE_CATEGORY: Category = Category::CashDrawer;
