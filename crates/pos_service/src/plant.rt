//! What a peripheral is physically.
ghost use Rattle.std.specs.Prelude.{◌≡◌};
ghost use Rattle.pos_service.specs.Receipts.{items_from, buffer_from};

use crate::display_text::DisplayCell;
use crate::receipt_text::{Mark, PrintedCharacter};
use std::marker::Model;

/// What a peripheral is physically: whether it is on, and the part that its kind has. That part stays while it is off.
#[derive(Drop)]
pub struct Plant {
    /// Whether it is on.
    pub powered: bool,
    /// The part that its kind has.
    pub mechanism: Mechanism,
}

/// What a peripheral is physically, by its kind.
#[derive(Drop)]
pub enum Mechanism {
    /// A drawer: true if it is open.
    Drawer(bool),
    /// A scanner, of which nothing changes.
    Scanner,
    /// A line display: what it shows.
    Display(DisplayCells),
    /// A receipt printer: its paper and its cover.
    Printer(Receipt),
}

/// What a line display shows. Contracts see its rows, its columns, and the list of its cells row by row.
#[derive(Drop)]
pub struct DisplayCells {
    rows: u32,
    columns: u32,
    cells: Vec<DisplayCell>,
}

impl Model for DisplayCells {
    ghost use Rattle.pos_service.specs.Displays.{Display};

    ghost Value = { Display };

    ghost view = { λ d. record { rows = d.rows; columns = d.columns; cells = d.cells.items } };
}

impl DisplayCells {
    /// Returns these cells, row by row, of a display of so many rows and columns. It copies nothing.
    pub fn new(rows: u32, columns: u32, cells: Vec<DisplayCell>) -> Self
        ensures { result ≡ record { rows = rows; columns = columns; cells = cells.items } }
    {
        DisplayCells {
            rows,
            columns,
            cells,
        }
    }

    /// Returns how many rows the display has.
    pub fn rows(&self) -> u32
        ensures { result ≡ self.now.rows }
    {
        self.rows
    }

    /// Returns how many columns the display has.
    pub fn columns(&self) -> u32
        ensures { result ≡ self.now.columns }
    {
        self.columns
    }

    /// Returns the cells row by row.
    pub fn as_slice(&self) -> &[DisplayCell]
        ensures { result.now ≡ self.now.cells }
    {
        self.cells.as_slice()
    }

    /// Returns the cells row by row as a `Vec`. It copies nothing.
    pub fn into_vec(self) -> Vec<DisplayCell>
        ensures { result.items ≡ self.cells }
    {
        let DisplayCells {
            rows: _,
            columns: _,
            cells,
        } = self;
        cells
    }
}

/// A receipt printer's paper and cover. Contracts see how many characters a line has, what is printed, the line buffer,
/// how many lines of paper are left, and whether the cover is open.
#[derive(Drop)]
pub struct Receipt {
    chars: u32,
    marks: Vec<Mark>,
    characters: Vec<PrintedCharacter>,
    left: u32,
    is_cover_open: bool,
}

impl Model for Receipt {
    ghost use Rattle.pos_service.specs.Receipts.{Printer};
    ghost use Rattle.pos_service.specs.Receipts.{items_from, buffer_from};

    ghost Value = { Printer };

    ghost view = { λ r. record {
      chars = r.chars;
      items = items_from r.marks.items r.characters.items;
      buffer = buffer_from r.marks.items r.characters.items;
      left = r.left;
      is_cover_open = r.is_cover_open;
    } };
}

impl Receipt {
    /// Returns what is printed on lines of so many characters, with so many lines of paper left, and the cover open or
    /// not. It copies nothing.
    ///
    /// What is printed comes in two flat lists: the lines and the cuts, and all characters, those of the line buffer
    /// last.
    pub fn new(
        chars: u32,
        marks: Vec<Mark>,
        characters: Vec<PrintedCharacter>,
        left: u32,
        is_cover_open: bool,
    ) -> Self
        ensures { result ≡ record {
          chars = chars;
          items = items_from marks.items characters.items;
          buffer = buffer_from marks.items characters.items;
          left = left;
          is_cover_open = is_cover_open;
        } }
    {
        Receipt {
            chars,
            marks,
            characters,
            left,
            is_cover_open,
        }
    }

    /// Returns how many characters a line has.
    pub fn chars(&self) -> u32
        ensures { result ≡ self.now.chars }
    {
        self.chars
    }

    /// Returns what is printed, in two flat lists: the lines and the cuts, and all characters, those of the line buffer
    /// last.
    pub fn printed(&self) -> (&[Mark], &[PrintedCharacter])
        ensures items { items_from result.0.now result.1.now ≡ self.now.items }
        ensures buffer { buffer_from result.0.now result.1.now ≡ self.now.buffer }
    {
        (self.marks.as_slice(), self.characters.as_slice())
    }

    /// Returns how many lines of paper are left.
    pub fn lines_left(&self) -> u32
        ensures { result ≡ self.now.left }
    {
        self.left
    }

    /// Returns whether the cover is open.
    pub fn is_cover_open(&self) -> bool
        ensures { result ≡ self.now.is_cover_open }
    {
        self.is_cover_open
    }
}

/// A copy of what a peripheral is physically.
#[derive(Drop)]
pub struct Snapshot(pub Plant);
