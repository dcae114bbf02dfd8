//! The device window of a line display.
ghost use Rattle.std.specs.Prelude.{◌≡◌, ◌≤◌, true, IfOk};
ghost use Rattle.pos_service.specs.declared.kind.Kind.TheVariants as kind;
ghost use Rattle.pos_service.specs.declared.plant.Mechanism.TheVariants as mechanism;
ghost use Rattle.pos_service.specs.Displays.{Display, ShowsText, Scrolls, blank_display, is_cursor_place, most_units};
ghost use Rattle.pos_service.specs.Peripherals.{IsInRange, IsMechanismOf};

use pos_service::display_text::{Attribute, Direction, Place};
use pos_service::{DisplayCells, Kind, NoMemory};
use std::alloc::Global;

/// The device window of a line display, 1 to 8 rows of 1 to 80 columns (UnifiedPOS 1.16, chapter Line Display), however
/// its cells are kept. Only `new` and `copy` take memory.
pub trait Screen {
    /// Its size, and what it shows, row by row.
    ghost shown: { Self → Display };

    /// Returns a window of 1 to 8 rows of 1 to 80 columns that shows nothing.
    ///
    /// # Errors
    ///
    /// [`NoMemory`] if memory ran out.
    fn new(alloc: Global, rows: u32, columns: u32) -> Result<Self, NoMemory>
        requires rows { (1 ≤ rows) × (rows ≤ 8) }
        requires columns { (1 ≤ columns) × (columns ≤ 80) }
        ensures { IfOk result (λ screen. shown screen ≡ blank_display rows columns) };

    /// Returns what a display with this window is.
    fn kind(&self) -> Kind
        ensures kind { result ≡ kind.Display (shown self.now).rows (shown self.now).columns }
        ensures in_range { IsInRange result }
        ensures mechanism { IsMechanismOf result (mechanism.Display (shown self.now)) };

    /// Returns a copy of what is shown.
    ///
    /// # Errors
    ///
    /// [`NoMemory`] if memory ran out.
    fn copy(&self, alloc: Global) -> Result<DisplayCells, NoMemory>
        ensures { IfOk result (λ cells. cells ≡ shown self.now) };

    /// Shows a text with an attribute from a place on, whose column is at most the number of columns.
    ///
    /// A character that follows one in the last column is in the next row. A line feed goes to the start of the next
    /// row, a carriage return to the start of the row. If the last row is passed, the window scrolls.
    fn show(&mut self, start: Place, attribute: Attribute, bytes: &[u8])
        requires { is_cursor_place (shown self.old).rows (shown self.old).columns start ≡ true }
        ensures { ShowsText (shown self.old) start attribute bytes.now (shown self.new) };

    /// Moves what is shown in a direction by 0 to as many units as there are rows (up, down) or columns (left, right).
    /// Blanks fill what is vacated.
    fn scroll(&mut self, direction: Direction, units: u32)
        requires { units ≤ most_units (shown self.old).rows (shown self.old).columns direction }
        ensures { Scrolls (shown self.old) direction units (shown self.new) };

    /// Blanks all cells.
    fn clear(&mut self)
        ensures { shown self.new ≡ blank_display (shown self.old).rows (shown self.old).columns };
}
