//! The kinds of devices.
ghost use Rattle.std.specs.Prelude.{◌≡◌};
ghost use Rattle.pos_service.specs.Kinds.{is_drawer, is_display, is_printer, rows_of, columns_of, chars_of};

/// What a device is, with the numbers that don't change while it lives.
#[derive(Clone, Copy, PartialEq, Eq)]
pub enum Kind {
    /// A cash drawer.
    Drawer,
    /// A scanner.
    Scanner,
    /// A line display of 1 to 8 rows of 1 to 80 columns (chapter Line Display).
    Display { rows: u32, columns: u32 },
    /// A receipt printer of 1 to 255 characters a line (chapter POS Printer). Its paper is near its end at 1 to `near`
    /// lines, `near` being 0 to 100,000.
    Printer { chars: u32, near: u32 },
}

impl Kind {
    /// Returns whether it is a cash drawer.
    pub fn is_drawer(self) -> bool
        ensures { result ≡ is_drawer self }
    {
        matches!(self, Kind::Drawer)
    }

    /// Returns whether it is a line display.
    pub fn is_display(self) -> bool
        ensures { result ≡ is_display self }
    {
        matches!(
            self,
            Kind::Display {
                rows: _,
                columns: _,
            }
        )
    }

    /// Returns whether it is a receipt printer.
    pub fn is_printer(self) -> bool
        ensures { result ≡ is_printer self }
    {
        matches!(self, Kind::Printer { chars: _, near: _ })
    }
}

/// Returns how many rows a device's peripheral has, or 0 if there is none or it is no display (chapter Line Display).
pub fn rows_of(kind: Option<Kind>) -> u32
    ensures { result ≡ rows_of kind }
{
    match kind {
        Some(Kind::Display { rows, columns: _ }) => rows,
        _ => 0,
    }
}

/// Returns how many columns a device's peripheral has, or 0 if there is none or it is no display (chapter Line
/// Display).
pub fn columns_of(kind: Option<Kind>) -> u32
    ensures { result ≡ columns_of kind }
{
    match kind {
        Some(Kind::Display { rows: _, columns }) => columns,
        _ => 0,
    }
}

/// Returns how many characters a line of a device's peripheral has, or 0 if there is none or it is no printer (chapter
/// POS Printer).
pub fn chars_of(kind: Option<Kind>) -> u32
    ensures { result ≡ chars_of kind }
{
    match kind {
        Some(Kind::Printer { chars, near: _ }) => chars,
        _ => 0,
    }
}
