//! How cells scroll.
ghost use Rattle.std.specs.Prelude.{◌≡◌, ◌*◌, ◌≤◌, length};
ghost use Rattle.pos_service.specs.Displays.{Scrolls, most_units};
ghost use Rattle.pos_sims.specs.Windows.{IsSized, ShiftsToFront, ShiftsToEnd, MovesToFront, MovesToEnd, display_of};

use pos_service::display_text::{BLANK, Direction, DisplayCell};

/// Moves each cell so many places to the front; after them are blanks.
pub(crate) fn shift_to_front(cells: &mut [DisplayCell], places: usize)
    ensures count { length cells.new ≡ length cells.old }
    ensures moved { ShiftsToFront places cells.old cells.new }
{
    let len = cells.len();
    let places = places.min(len);
    cells.copy_within(places..len, 0);
    cells[len - places..].fill(BLANK);
}

/// Moves each cell so many places to the end; before them are blanks.
pub(crate) fn shift_to_end(cells: &mut [DisplayCell], places: usize)
    ensures count { length cells.new ≡ length cells.old }
    ensures moved { ShiftsToEnd places cells.old cells.new }
{
    let len = cells.len();
    let places = places.min(len);
    cells.copy_within(..len - places, places);
    cells[..places].fill(BLANK);
}

/// Moves each cell within each part of `width` cells so many places to the front; after them are blanks.
pub(crate) fn move_to_front(cells: &mut [DisplayCell], width: usize, places: usize)
    requires some { 1 ≤ width }
    ensures count { length cells.new ≡ length cells.old }
    ensures moved { MovesToFront width places cells.old cells.new }
{
    let len = cells.len();
    for i in 0..len {
        cells[i] = if places < width - i % width && places < len - i {
            cells[i + places]
        } else {
            BLANK
        };
    }
}

/// Moves each cell within each part of `width` cells so many places to the end; before them are blanks.
pub(crate) fn move_to_end(cells: &mut [DisplayCell], width: usize, places: usize)
    requires some { 1 ≤ width }
    ensures count { length cells.new ≡ length cells.old }
    ensures moved { MovesToEnd width places cells.old cells.new }
{
    let mut left = cells.len();
    while left > 0 {
        left -= 1;
        cells[left] = if places <= left % width {
            cells[left - places]
        } else {
            BLANK
        };
    }
}

/// Scrolls cells of so many rows and columns.
pub(crate) fn scroll_cells(
    cells: &mut [DisplayCell],
    rows: u32,
    columns: u32,
    direction: Direction,
    units: u32,
)
    requires sized { IsSized rows columns (length cells.old) }
    requires units { units ≤ most_units rows columns direction }
    ensures { Scrolls (display_of rows columns cells.old) direction units (display_of rows columns cells.new) }
{
    let width = columns as usize;
    let units = units as usize;
    match direction {
        Direction::Up => shift_to_front(cells, units * width),
        Direction::Down => shift_to_end(cells, units * width),
        Direction::Left => move_to_front(cells, width, units),
        Direction::Right => move_to_end(cells, width, units),
    }
}
