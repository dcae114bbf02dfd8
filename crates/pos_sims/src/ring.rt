//! A device window whose rows turn.
ghost use Rattle.std.specs.Prelude.{◌<◌, vec_len};
ghost use Rattle.pos_sims.specs.Windows.{IsSized};

use crate::grid::Grid;
use crate::ring_places::{above, below, blank_row, in_ring};
use crate::screen::Screen;
use crate::scroll::{move_to_end, move_to_front};
use crate::text_layout::{TextStyle, lay_text, put_characters};
use pos_service::display_text::{Attribute, BLANK, Direction, DisplayCell, Place};
use pos_service::{DisplayCells, Kind, NoMemory};
use std::alloc::Global;

/// A device window whose rows are a ring: a row that scrolls out is blanked, and is the row that scrolls in.
#[derive(Drop)]
pub struct Ring {
    pub(crate) rows: u32,
    pub(crate) columns: u32,
    /// The row of the ring that is the first of the window.
    pub(crate) first: u32,
    /// The cells of the ring, row by row.
    pub(crate) cells: Vec<DisplayCell>,
    ghost sized: { IsSized rows columns (vec_len cells) },
    ghost within: { first < rows },
}

impl Ring {
    ghost use Rattle.std.specs.Prelude.{◌≡◌, ◌+◌, ◌*◌, ◌≤◌, vec_len};
    ghost use Rattle.pos_sims.specs.Rings.{blanked, shown_on};
    ghost use Rattle.pos_sims.specs.Windows.{SameSize, ShiftsToEnd, ShiftsToFront};

    /// Returns where the first row of the window begins among the cells.
    fn start(&self) -> usize
        ensures start { result ≡ self.now.first * self.now.columns }
        ensures row { result + self.now.columns ≤ vec_len self.now.cells }
    {
        self.first as usize * self.columns as usize
    }

    /// Blanks the first row.
    fn blank_first_row(&mut self)
        ensures cells { self.new.cells.items ≡ (let at = self.old.first * self.old.columns in
            blanked at self.old.columns self.old.cells.items) }
        ensures first { self.new.first ≡ self.old.first }
        ensures rows { self.new.rows ≡ self.old.rows }
        ensures columns { self.new.columns ≡ self.old.columns }
    {
        let (start, columns) = (self.start(), self.columns as usize);
        blank_row(&mut self.cells[start..start + columns]);
    }

    /// Moves each row down by one, and blanks the first.
    fn feed_back(&mut self)
        ensures size { SameSize (shown_on self.old) (shown_on self.new) }
        ensures moved { ShiftsToEnd (shown_on self.old).columns (shown_on self.old).cells (shown_on self.new).cells }
    {
        self.first = above(self.first, self.rows);
        self.blank_first_row();
    }

    /// Moves what is shown up by so many rows.
    fn scroll_up(&mut self, units: u32)
        ensures size { SameSize (shown_on self.old) (shown_on self.new) }
        ensures moved { let old = shown_on self.old in
            ShiftsToFront (units * old.columns) old.cells (shown_on self.new).cells }
    {
        for _ in 0..units {
            self.feed_row();
        }
    }

    /// Moves what is shown down by so many rows.
    fn scroll_down(&mut self, units: u32)
        ensures size { SameSize (shown_on self.old) (shown_on self.new) }
        ensures moved { let old = shown_on self.old in
            ShiftsToEnd (units * old.columns) old.cells (shown_on self.new).cells }
    {
        for _ in 0..units {
            self.feed_back();
        }
    }
}

impl Screen for Ring {
    ghost use Rattle.std.specs.Prelude.{◌*◌, ◌<◌};
    ghost use Rattle.pos_sims.specs.Rings.{shown_on};

    ghost shown = { λ ring. shown_on ring };

    fn new(alloc: Global, rows: u32, columns: u32) -> Result<Self, NoMemory> {
        let cells = Vec::from_elem(alloc, BLANK, rows as usize * columns as usize)?;
        Ok(Ring {
            rows,
            columns,
            first: 0,
            cells,
        })
    }

    fn kind(&self) -> Kind {
        let (rows, columns) = (self.rows, self.columns);
        Kind::Display { rows, columns }
    }

    fn copy(&self, alloc: Global) -> Result<DisplayCells, NoMemory> {
        let start = self.start();
        let mut cells = Vec::with_capacity(alloc, self.cells.len())?;
        cells.extend_from_slice(&self.cells[start..])?;
        cells.extend_from_slice(&self.cells[..start])?;
        Ok(DisplayCells::new(self.rows, self.columns, cells))
    }

    fn show(&mut self, start: Place, attribute: Attribute, bytes: &[u8]) {
        let style = TextStyle {
            rows: self.rows,
            columns: self.columns,
            attribute,
        };
        lay_text(self, style, start, bytes);
    }

    fn scroll(&mut self, direction: Direction, units: u32) {
        let columns = self.columns as usize;
        match direction {
            Direction::Up => self.scroll_up(units),
            Direction::Down => self.scroll_down(units),
            Direction::Left => move_to_front(self.cells.as_mut_slice(), columns, units as usize),
            Direction::Right => move_to_end(self.cells.as_mut_slice(), columns, units as usize),
        }
    }

    fn clear(&mut self) {
        self.first = 0;
        self.cells.fill(BLANK);
    }
}

impl Grid for Ring {
    ghost use Rattle.std.specs.Prelude.{◌+◌, ◌*◌};
    ghost use Rattle.pos_sims.specs.Rings.{shown_on};

    ghost shown = { λ ring. shown_on ring };

    fn put_run(&mut self, place: Place, attribute: Attribute, characters: &[u8]) {
        let at = place.row as usize * self.columns as usize + place.column as usize;
        let first = in_ring(at, self.start(), self.cells.len());
        put_characters(self.cells.as_mut_slice(), first, attribute, characters);
    }

    fn feed_row(&mut self) {
        self.blank_first_row();
        self.first = below(self.first, self.rows);
    }
}
