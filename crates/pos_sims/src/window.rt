//! A device window whose cells are kept row by row.
use crate::grid::Grid;
use crate::screen::Screen;
use crate::scroll::{scroll_cells, shift_to_front};
use crate::text_layout::{TextStyle, lay_text, put_characters};
use pos_service::display_text::{Attribute, BLANK, Direction, DisplayCell, Place};
use pos_service::{DisplayCells, Kind, NoMemory};
use std::alloc::Global;
use std::marker::Model;

/// A device window whose cells are kept row by row, from the first. Contracts see its size and its cells.
#[derive(Drop)]
pub struct Window {
    rows: u32,
    columns: u32,
    cells: Vec<DisplayCell>,
}

impl Model for Window {
    ghost use Rattle.std.specs.Prelude.{vec_len};
    ghost use Rattle.pos_service.specs.Displays.{Display};
    ghost use Rattle.pos_sims.specs.Windows.{IsSized};

    ghost Value = { Display };

    ghost view = { λ w. record { rows = w.rows; columns = w.columns; cells = w.cells.items } };

    ghost invariant = { λ w. IsSized w.rows w.columns (vec_len w.cells) };
}

impl Window {
    ghost use Rattle.std.specs.Prelude.{◌≡◌, IfOk, length};
    ghost use Rattle.pos_sims.specs.Windows.{IsSized};

    /// Returns a window that shows these cells, which fill it.
    ///
    /// # Errors
    ///
    /// [`NoMemory`] if memory ran out.
    pub(crate) fn showing(alloc: Global, shown: &DisplayCells) -> Result<Self, NoMemory>
        requires sized { IsSized shown.now.rows shown.now.columns (length shown.now.cells) }
        ensures { IfOk result (λ window. window ≡ shown.now) }
    {
        let cells = Vec::from_slice(alloc, shown.as_slice())?;
        Ok(Window {
            rows: shown.rows(),
            columns: shown.columns(),
            cells,
        })
    }
}

impl Screen for Window {
    ghost shown = { λ window. window };

    fn new(alloc: Global, rows: u32, columns: u32) -> Result<Self, NoMemory> {
        let cells = Vec::from_elem(alloc, BLANK, rows as usize * columns as usize)?;
        Ok(Window {
            rows,
            columns,
            cells,
        })
    }

    fn kind(&self) -> Kind {
        let (rows, columns) = (self.rows, self.columns);
        Kind::Display { rows, columns }
    }

    fn copy(&self, alloc: Global) -> Result<DisplayCells, NoMemory> {
        let cells = Vec::from_slice(alloc, self.cells.as_slice())?;
        Ok(DisplayCells::new(self.rows, self.columns, cells))
    }

    fn show(&mut self, start: Place, attribute: Attribute, bytes: &[u8]) {
        let style = TextStyle {
            rows: self.rows,
            columns: self.columns,
            attribute,
        };
        lay_text(self, style, start, bytes);
    }

    fn scroll(&mut self, direction: Direction, units: u32) {
        let (rows, columns) = (self.rows, self.columns);
        scroll_cells(self.cells.as_mut_slice(), rows, columns, direction, units);
    }

    fn clear(&mut self) {
        self.cells.fill(BLANK);
    }
}

impl Grid for Window {
    ghost shown = { λ window. window };

    fn put_run(&mut self, place: Place, attribute: Attribute, characters: &[u8]) {
        let at = place.row as usize * self.columns as usize + place.column as usize;
        put_characters(self.cells.as_mut_slice(), at, attribute, characters);
    }

    fn feed_row(&mut self) {
        let columns = self.columns as usize;
        shift_to_front(self.cells.as_mut_slice(), columns);
    }
}
