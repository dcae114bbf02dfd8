//! A simulated receipt printer.
ghost use Rattle.std.specs.Prelude.{◌≤◌};

use crate::power::{off_reply, passes_by};
use crate::print_preview::PrintPreview;
use crate::roll::Roll;
use pos_drive::{Preview, Tears};
use pos_service::{
    Input, Kind, Mechanism, NoMemory, Order, PaperLevel, Peripheral, Plant, Receipt, Reply, Signs,
    Snapshot, Taken,
};
use std::alloc::Global;

/// A receipt printer of 1 to 255 characters a line (chapter POS Printer). Its paper is near its end at up to 100,000
/// lines, and its line never fails. A request is printed whole or not at all.
#[derive(Drop)]
pub struct RollPrinter {
    alloc: Global,
    roll: Roll,
    near: u32,
    powered: bool,
    is_parked: bool,
    orders: u64,
    ghost near_in_range: { near ≤ 100000 },
}

impl RollPrinter {
    ghost use Rattle.std.specs.Prelude.{◌≡◌, ◌≤◌, true, false};
    ghost use Rattle.pos_service.specs.Receipts.{empty_roll};
    ghost use Rattle.pos_sims.specs.ReceiptPrinters.{printer_state, state_of};

    /// Returns a printer of 1 to 255 characters a line that is on and in service and has printed nothing. It has 0 to
    /// 100,000 lines of paper left, which are near their end at 1 to `near`, 0 to 100,000. The cover is closed.
    pub fn new(alloc: Global, chars: u32, lines: u32, near: u32) -> Self
        requires chars { (1 ≤ chars) × (chars ≤ 255) }
        requires lines { lines ≤ 100000 }
        requires near { near ≤ 100000 }
        ensures { state_of result ≡ printer_state (empty_roll chars lines) near false }
    {
        RollPrinter {
            alloc,
            roll: Roll::new(alloc, chars, lines),
            near,
            powered: true,
            is_parked: false,
            orders: 0,
        }
    }
}

impl Peripheral for RollPrinter {
    ghost use Rattle.std.specs.Prelude.{◌≡◌, true, false, IsOk};
    ghost use Rattle.pos_service.specs.Peripherals.{Fed, input_fits};
    ghost use Rattle.pos_sims.specs.ReceiptPrinters.{state_of};

    ghost state = { λ printer. state_of printer };

    fn kind(&self) -> Kind {
        Kind::Printer {
            chars: self.roll.chars(),
            near: self.near,
        }
    }

    fn signs(&self) -> Signs {
        Signs {
            powered: self.powered,
            drawer_open: false,
            cover_open: self.roll.is_cover_open(),
            paper: PaperLevel::of_lines(self.near, self.roll.lines_left()),
        }
    }

    fn ask(&mut self, order: &Order) -> Result<Reply, NoMemory> {
        self.orders = self.orders.saturating_add(1);
        if let Some(off) = off_reply(self.powered) {
            return Ok(off);
        }
        if !order.fits(self.kind()) {
            return Ok(Reply::LineFault);
        }
        match order {
            Order::Print { bytes } => self.roll.print(bytes.as_slice()),
            Order::Cut { percentage } => self.roll.cut(*percentage),
            _ => unreachable!(),
        }
    }

    fn feed(&mut self, input: &Input) -> Result<Taken, NoMemory>
        ensures fed { (state_of self.old).is_parked ≡ false → input_fits (state_of self.old).kind input.now ≡ true →
            Fed (state_of self.old) input.now result (state_of self.new) }
        ensures takes_no_memory { IsOk result }
    {
        if passes_by(&mut self.powered, input) {
            return Ok(Taken::Quiet);
        }
        match input {
            Input::CoverMoved(is_open) => {
                self.roll.move_cover(*is_open);
                Ok(Taken::Quiet)
            }
            Input::PaperLoaded(lines) => {
                self.roll.load(*lines);
                Ok(Taken::Quiet)
            }
            _ => Ok(Taken::Fault),
        }
    }

    fn snapshot(&self) -> Result<Snapshot, NoMemory> {
        let (marks, characters) = self.roll.printed();
        let receipt = Receipt::new(
            self.roll.chars(),
            Vec::from_slice(self.alloc, marks)?,
            Vec::from_slice(self.alloc, characters)?,
            self.roll.lines_left(),
            self.roll.is_cover_open(),
        );
        Ok(Snapshot(Plant {
            powered: self.powered,
            mechanism: Mechanism::Printer(receipt),
        }))
    }

    fn park(&mut self) {
        self.is_parked = true;
    }

    fn is_parked(&self) -> bool {
        self.is_parked
    }
}

impl Preview for RollPrinter {
    fn would(&self, order: &Order) -> Reply {
        if let Some(off) = off_reply(self.powered) {
            return off;
        }
        match order {
            Order::Print { bytes } => self.roll.would_print(bytes.as_slice()),
            Order::Cut { percentage } => self.roll.would_cut(*percentage),
            _ => Reply::LineFault,
        }
    }
}

impl PrintPreview for RollPrinter {
    fn would_add(&self, alloc: Global, order: &Order) -> Result<Option<Roll>, NoMemory> {
        if !self.powered || !order.fits(self.kind()) {
            return Ok(None);
        }
        let mut roll = self.roll.begun(alloc)?;
        let reply = match order {
            Order::Print { bytes } => roll.print(bytes.as_slice())?,
            Order::Cut { percentage } => roll.cut(*percentage)?,
            _ => unreachable!(),
        };
        if reply == Reply::Done {
            Ok(Some(roll))
        } else {
            Ok(None)
        }
    }
}

impl Tears for RollPrinter {
    fn tear_off(&mut self) -> Result<(), NoMemory> {
        self.roll = self.roll.begun(self.alloc)?;
        Ok(())
    }
}
