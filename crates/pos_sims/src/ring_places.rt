//! Where rows and cells are in a ring.
ghost use Rattle.std.specs.Prelude.{◌≡◌, ◌+◌, ◌<◌, ◌≤◌, length, replicate};
ghost use Rattle.pos_service.specs.Displays.{blank};
ghost use Rattle.pos_sims.specs.Rings.{IsAbove, IsBelow, StandsAt};

use pos_service::display_text::{BLANK, DisplayCell};

/// A blank row of the longest.
const BLANK_ROW: [DisplayCell; 80] = [BLANK; 80];

/// Blanks cells, no more than the longest row has. They are copied at once, which is faster than one by one.
pub(crate) fn blank_row(cells: &mut [DisplayCell])
    requires { length cells.old ≤ 80 }
    ensures { cells.new ≡ replicate (length cells.old) blank }
{
    let len = cells.len();
    cells.copy_from_slice(&BLANK_ROW[..len]);
}

/// Returns the row below a row of a ring of so many.
pub(crate) fn below(row: u32, rows: u32) -> u32
    requires { row < rows }
    ensures { IsBelow rows row result }
{
    if row + 1 == rows { 0 } else { row + 1 }
}

/// Returns the row above a row of a ring of so many.
pub(crate) fn above(row: u32, rows: u32) -> u32
    requires { row < rows }
    ensures { IsAbove rows row result }
{
    if row == 0 { rows - 1 } else { row - 1 }
}

/// Returns where a cell of the window is in a ring of so many cells, of which the one at `start` comes first.
pub(crate) fn in_ring(at: usize, start: usize, count: usize) -> usize
    requires at { at < count }
    requires start { start ≤ count }
    ensures stands { StandsAt at start count result }
    ensures in_range { result < count }
{
    let behind = count - start;
    if at < behind { start + at } else { at - behind }
}
