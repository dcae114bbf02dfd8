//! A simulated line display.
ghost use Rattle.std.specs.Prelude.{◌≡◌, ◌≤◌, true, false, IsOk, IfOk};
ghost use Rattle.pos_service.specs.Displays.{blank_display};
ghost use Rattle.pos_service.specs.Peripherals.{Asked, Fed, order_fits};
ghost use Rattle.pos_sims.specs.ScreenDisplays.{display_state, state_on};

use crate::power::{off_reply, passes_by, reply_while};
use crate::ring::Ring;
use crate::screen::Screen;
use crate::window::Window;
use pos_drive::{Preview, Tears};
use pos_service::display_text::Place;
use pos_service::{
    DisplayCells, Input, Kind, Mechanism, NoMemory, Order, PaperLevel, Peripheral, Plant, Reply,
    Signs, Snapshot, Taken,
};
use std::alloc::Global;

/// A line display of 1 to 8 rows of 1 to 80 columns whose line never fails (chapter Line Display), over a window of its
/// own kind. `new` makes its cells; after that only a snapshot takes memory.
#[derive(Drop)]
pub struct ScreenDisplay<S: Screen> {
    alloc: Global,
    screen: S,
    powered: bool,
    is_parked: bool,
    orders: u64,
}

/// A line display whose cells are kept row by row.
pub type PlainDisplay = ScreenDisplay<Window>;

/// A line display whose rows are a ring: a scroll up or down by a row moves no cell.
pub type RingDisplay = ScreenDisplay<Ring>;

impl<S: Screen> ScreenDisplay<S> {
    /// Returns a blank display of 1 to 8 rows of 1 to 80 columns that is on and in service.
    ///
    /// # Errors
    ///
    /// [`NoMemory`] if memory ran out.
    pub fn new(alloc: Global, rows: u32, columns: u32) -> Result<Self, NoMemory>
        requires rows { (1 ≤ rows) × (rows ≤ 8) }
        requires columns { (1 ≤ columns) × (columns ≤ 80) }
        ensures { IfOk result (λ display.
            state_on S.Screen display ≡ display_state (blank_display rows columns) false) }
    {
        Ok(ScreenDisplay {
            alloc,
            screen: S::new(alloc, rows, columns)?,
            powered: true,
            is_parked: false,
            orders: 0,
        })
    }
}

impl ScreenDisplay<Window> {
    ghost use Rattle.std.specs.Prelude.{◌*◌, length};
    ghost use Rattle.pos_sims.specs.ScreenDisplays.{state_of};

    /// Returns a display of 1 to 8 rows of 1 to 80 columns that shows these cells, and is on and in service.
    ///
    /// # Errors
    ///
    /// [`NoMemory`] if memory ran out.
    pub fn showing(alloc: Global, shown: &DisplayCells) -> Result<Self, NoMemory>
        requires rows { (1 ≤ shown.now.rows) × (shown.now.rows ≤ 8) }
        requires columns { (1 ≤ shown.now.columns) × (shown.now.columns ≤ 80) }
        requires cells { length shown.now.cells ≡ shown.now.rows * shown.now.columns }
        ensures { IfOk result (λ display. state_of display ≡ display_state shown.now false) }
    {
        Ok(ScreenDisplay {
            alloc,
            screen: Window::showing(alloc, shown)?,
            powered: true,
            is_parked: false,
            orders: 0,
        })
    }
}

impl<S: Screen> Peripheral for ScreenDisplay<S> {
    ghost state = { λ display. state_on S.Screen display };

    fn kind(&self) -> Kind {
        self.screen.kind()
    }

    fn signs(&self) -> Signs {
        Signs {
            powered: self.powered,
            drawer_open: false,
            cover_open: false,
            paper: PaperLevel::Good,
        }
    }

    fn ask(&mut self, order: &Order) -> Result<Reply, NoMemory>
        ensures asked { let state = state_on S.Screen in
            (state self.old).is_parked ≡ false → order_fits (state self.old).kind order.now ≡ true →
            Asked (state self.old) order.now result (state self.new) }
        ensures takes_no_memory { IsOk result }
    {
        self.orders = self.orders.saturating_add(1);
        if let Some(off) = off_reply(self.powered) {
            return Ok(off);
        }
        if !order.fits(self.kind()) {
            return Ok(Reply::LineFault);
        }
        match order {
            Order::ShowText {
                row,
                column,
                attribute,
                bytes,
            } => {
                let start = Place {
                    row: *row,
                    column: *column,
                };
                self.screen.show(start, *attribute, bytes.as_slice());
                Ok(Reply::Done)
            }
            Order::ClearText => {
                self.screen.clear();
                Ok(Reply::Done)
            }
            Order::Scroll { direction, units } => {
                self.screen.scroll(*direction, *units);
                Ok(Reply::Done)
            }
            _ => unreachable!(),
        }
    }

    fn feed(&mut self, input: &Input) -> Result<Taken, NoMemory>
        ensures fed { let state = state_on S.Screen in
            (state self.old).is_parked ≡ false → Fed (state self.old) input.now result (state self.new) }
        ensures takes_no_memory { IsOk result }
    {
        let _ = passes_by(&mut self.powered, input);
        Ok(Taken::Quiet)
    }

    fn snapshot(&self) -> Result<Snapshot, NoMemory> {
        let shown = self.screen.copy(self.alloc)?;
        Ok(Snapshot(Plant {
            powered: self.powered,
            mechanism: Mechanism::Display(shown),
        }))
    }

    fn park(&mut self) {
        self.is_parked = true;
    }

    fn is_parked(&self) -> bool {
        self.is_parked
    }
}

impl<S: Screen> Preview for ScreenDisplay<S> {
    fn would(&self, _: &Order) -> Reply {
        reply_while(self.powered, Reply::Done)
    }
}

impl<S: Screen> Tears for ScreenDisplay<S> {
    fn tear_off(&mut self) -> Result<(), NoMemory> {
        Ok(())
    }
}
