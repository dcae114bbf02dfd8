//! The categories of devices.
ghost use Rattle.std.specs.Prelude.{◌≡◌};
ghost use Rattle.pos_service.specs.Categories.{serves, is_exclusive, reports_power, category_named, name_of};

use crate::kind::Kind;

/// The category of a control, and of the devices that it may open.
#[derive(Clone, Copy, PartialEq, Eq)]
pub enum Category {
    /// Chapter Cash Drawer.
    CashDrawer,
    /// Chapter Scanner.
    Scanner,
    /// Chapter Line Display.
    LineDisplay,
    /// Chapter POS Printer.
    PosPrinter,
    /// Chapter Hard Totals.
    HardTotals,
}

impl Category {
    /// Returns the category of this word, as a profile and a script write it, or `None` if there is none.
    pub fn named(word: &[u8]) -> Option<Self>
        ensures { result ≡ category_named word.now }
    {
        if word == Category::CashDrawer.name().as_bytes() {
            return Some(Category::CashDrawer);
        }
        if word == Category::Scanner.name().as_bytes() {
            return Some(Category::Scanner);
        }
        if word == Category::LineDisplay.name().as_bytes() {
            return Some(Category::LineDisplay);
        }
        if word == Category::PosPrinter.name().as_bytes() {
            return Some(Category::PosPrinter);
        }
        if word == Category::HardTotals.name().as_bytes() {
            return Some(Category::HardTotals);
        }
        None
    }

    /// Returns its word, as [`named`](Self::named) reads it.
    pub fn name(self) -> &'static str
        ensures { result.now ≡ name_of self }
    {
        match self {
            Category::CashDrawer => "CashDrawer",
            Category::Scanner => "Scanner",
            Category::LineDisplay => "LineDisplay",
            Category::PosPrinter => "POSPrinter",
            Category::HardTotals => "HardTotals",
        }
    }

    /// Returns whether its controls may open a device of this kind. The Hard Totals have no such device.
    pub fn serves(self, kind: Kind) -> bool
        ensures { result ≡ serves self kind }
    {
        match self {
            Category::CashDrawer => matches!(kind, Kind::Drawer),
            Category::Scanner => matches!(kind, Kind::Scanner),
            Category::LineDisplay => matches!(
                kind,
                Kind::Display {
                    rows: _,
                    columns: _,
                }
            ),
            Category::PosPrinter => matches!(kind, Kind::Printer { chars: _, near: _ }),
            Category::HardTotals => false,
        }
    }

    /// Returns whether its devices are exclusive-use: one is enabled only for the control that has claimed it. The
    /// others are sharable (common chapter).
    pub fn is_exclusive(self) -> bool
        ensures { result ≡ is_exclusive self }
    {
        match self {
            Category::CashDrawer => false,
            Category::Scanner => true,
            Category::LineDisplay => true,
            Category::PosPrinter => true,
            Category::HardTotals => false,
        }
    }

    /// Returns whether its devices report if they are on: CapPowerReporting is PR_STANDARD (common chapter, device
    /// power reporting).
    pub fn reports_power(self) -> bool
        ensures { result ≡ reports_power self }
    {
        self != Category::HardTotals
    }
}
