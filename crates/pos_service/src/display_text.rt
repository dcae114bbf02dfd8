//! Texts of a line display: their characters and attributes, the cursor, and where a text leaves it.
ghost use Rattle.std.specs.Prelude.{◌≡◌, ◌≤◌, ◌<◌, ◌+◌, ◌-◌, ◌∷◌, [], true, min};
ghost use Rattle.std.specs.List.{list_all};
ghost use Rattle.pos_service.specs.Displays.{attribute_number_of, attribute_of, direction_number_of, direction_of, most_units, blank, default_cursor, is_display_byte, is_display_text, is_cursor_place, MovesCursor, text_from, place_in_window};

use crate::numbers::to_natural;

/// How a character is shown (chapter Line Display, the attribute of displayText).
#[derive(Clone, Copy, PartialEq, Eq)]
pub enum Attribute {
    /// DISP_DT_NORMAL.
    Normal,
    /// DISP_DT_BLINK.
    Blink,
    /// DISP_DT_REVERSE.
    Reverse,
    /// DISP_DT_BLINK_REVERSE.
    BlinkReverse,
}

impl Attribute {
    /// Returns its number in the standard, 0 to 3.
    pub fn number(self) -> u32
        ensures { result ≡ attribute_number_of self }
    {
        match self {
            Attribute::Normal => 0,
            Attribute::Blink => 1,
            Attribute::Reverse => 2,
            Attribute::BlinkReverse => 3,
        }
    }

    /// Returns the attribute with a number of the standard, or `None` if the number isn't 0 to 3.
    pub fn from_number(number: i128) -> Option<Self>
        ensures { result ≡ attribute_of number }
    {
        let Some(number) = to_natural(number) else {
            return None;
        };
        if number == 0 {
            return Some(Attribute::Normal);
        }
        if number == 1 {
            return Some(Attribute::Blink);
        }
        if number == 2 {
            return Some(Attribute::Reverse);
        }
        if number == 3 {
            return Some(Attribute::BlinkReverse);
        }
        None
    }
}

/// Where `scrollText` moves what is shown (chapter Line Display).
#[derive(Clone, Copy, PartialEq, Eq)]
pub enum Direction {
    /// DISP_ST_UP.
    Up,
    /// DISP_ST_DOWN.
    Down,
    /// DISP_ST_LEFT.
    Left,
    /// DISP_ST_RIGHT.
    Right,
}

impl Direction {
    /// Returns its number in the standard, 1 to 4.
    pub fn number(self) -> u32
        ensures { result ≡ direction_number_of self }
    {
        match self {
            Direction::Up => 1,
            Direction::Down => 2,
            Direction::Left => 3,
            Direction::Right => 4,
        }
    }

    /// Returns the direction with a number of the standard, or `None` if the number isn't 1 to 4.
    pub fn from_number(number: i128) -> Option<Self>
        ensures { result ≡ direction_of number }
    {
        let Some(number) = to_natural(number) else {
            return None;
        };
        if number == 1 {
            return Some(Direction::Up);
        }
        if number == 2 {
            return Some(Direction::Down);
        }
        if number == 3 {
            return Some(Direction::Left);
        }
        if number == 4 {
            return Some(Direction::Right);
        }
        None
    }

    /// Returns the most units by which a display of so many rows and columns scrolls: its rows up and down, its columns
    /// left and right.
    pub fn most_units(self, rows: u32, columns: u32) -> u32
        ensures { result ≡ most_units rows columns self }
    {
        match self {
            Direction::Up | Direction::Down => rows,
            Direction::Left | Direction::Right => columns,
        }
    }
}

/// A character of a display with its attribute.
#[derive(Clone, Copy, PartialEq, Eq)]
pub struct DisplayCell {
    /// The character, 0x20 to 0x7E.
    pub character: u8,
    /// How it is shown.
    pub attribute: Attribute,
}

/// A space without an attribute.
pub const BLANK: DisplayCell = DisplayCell {
    character: b' ',
    attribute: Attribute::Normal,
};

/// A place on a display, counted from 0. Its column is at most the number of columns, which is one right of the last.
#[derive(Clone, Copy, PartialEq, Eq)]
pub struct Place {
    /// The row, from 0.
    pub row: u32,
    /// The column, from 0.
    pub column: u32,
}

/// The first place: row 0, column 0.
pub const ORIGIN: Place = Place { row: 0, column: 0 };

/// Where the texts of a control begin, and whether they move that place (chapter Line Display, CursorRow, CursorColumn
/// and CursorUpdate).
#[derive(Clone, Copy, PartialEq, Eq)]
pub struct Cursor {
    /// The place of CursorRow and CursorColumn.
    pub place: Place,
    /// Whether a text moves the place to its end (CursorUpdate).
    pub update: bool,
}

impl Cursor {
    /// Returns the cursor of a control that was just opened: at the first place, and moved by texts.
    pub fn new() -> Self
        ensures { result ≡ default_cursor }
    {
        Cursor {
            place: ORIGIN,
            update: true,
        }
    }
}

/// Returns whether each byte is a line feed, a carriage return or 0x20 to 0x7E.
fn all_of_text(bytes: &[u8]) -> bool
    ensures { result ≡ list_all is_display_byte bytes.now }
{
    bytes
        .iter()
        .all(|b| *b == 10 || *b == 13 || (32 <= *b && *b <= 126))
}

/// Returns whether a display takes a text: at most 4,096 bytes, each a line feed, a carriage return or 0x20 to 0x7E
/// (chapter Line Display).
pub fn is_text_of_display(bytes: &[u8]) -> bool
    ensures { result ≡ is_display_text bytes.now }
{
    bytes.len() <= 4096 && all_of_text(bytes)
}

/// The place one row further, at its start. The last row scrolls.
fn next_row(rows: u32, place: Place) -> Place
    requires within { place.row < rows }
    ensures row { result.row ≡ min (place.row + 1) (rows - 1) }
    ensures column { result.column ≡ 0 }
{
    if place.row + 1 == rows {
        return Place {
            row: place.row,
            column: 0,
        };
    }
    Place {
        row: place.row + 1,
        column: 0,
    }
}

/// The place after one byte of a text.
fn place_after_byte(rows: u32, columns: u32, place: Place, byte: u8) -> Place
    requires some { 1 ≤ columns }
    requires row { place.row < rows }
    requires column { place.column ≤ columns }
    ensures follows { MovesCursor rows columns place (byte ∷ []) result }
    ensures row { result.row < rows }
    ensures column { result.column ≤ columns }
{
    if byte == b'\n' {
        return next_row(rows, place);
    }
    if byte == b'\r' {
        return Place {
            row: place.row,
            column: 0,
        };
    }
    if place.column == columns {
        return Place {
            row: next_row(rows, place).row,
            column: 1,
        };
    }
    Place {
        row: place.row,
        column: place.column + 1,
    }
}

/// Returns where the cursor is after a text that begins at a place of a display of so many rows and columns (chapter
/// Line Display, CursorRow and CursorColumn with CursorUpdate true).
pub fn place_after(rows: u32, columns: u32, start: Place, bytes: &[u8]) -> Place
    requires some { 1 ≤ columns }
    requires within { is_cursor_place rows columns start ≡ true }
    ensures reached { result ≡ place_in_window rows (text_from columns start bytes.now).place }
    ensures within { is_cursor_place rows columns result ≡ true }
{
    let mut place = start;
    for byte in bytes {
        place = place_after_byte(rows, columns, place, *byte);
    }
    place
}
