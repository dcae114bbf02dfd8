//! A simulated scanner.
ghost use Rattle.std.specs.Prelude.{◌≡◌, true, false, IsOk, IfOk};
ghost use Rattle.pos_service.specs.Peripherals.{Asked, Fed, input_fits};
ghost use Rattle.pos_sims.specs.Scanners.{scanner_state, state_of};

use crate::power::passes_by;
use pos_drive::{Preview, Tears};
use pos_service::{
    Input, Kind, Mechanism, NoMemory, Order, PaperLevel, Peripheral, Plant, Reply, Signs, Snapshot,
    Taken,
};

/// A scanner that takes no memory (chapter Scanner). Its line fails only with orders, none of which a scanner takes.
#[derive(Drop)]
pub struct PlainScanner {
    powered: bool,
    is_parked: bool,
    orders: u64,
}

impl PlainScanner {
    /// Returns a scanner that is on and in service.
    pub fn new() -> Self
        ensures { state_of result ≡ scanner_state false 0 }
    {
        PlainScanner {
            powered: true,
            is_parked: false,
            orders: 0,
        }
    }
}

impl Peripheral for PlainScanner {
    ghost state = { λ scanner. state_of scanner };

    fn kind(&self) -> Kind {
        Kind::Scanner
    }

    fn signs(&self) -> Signs {
        Signs {
            powered: self.powered,
            drawer_open: false,
            cover_open: false,
            paper: PaperLevel::Good,
        }
    }

    fn ask(&mut self, order: &Order) -> Result<Reply, NoMemory>
        ensures asked { (state_of self.old).is_parked ≡ false →
            Asked (state_of self.old) order.now result (state_of self.new) }
        ensures takes_no_memory { IsOk result }
    {
        let _ = order;
        self.orders = self.orders.saturating_add(1);
        Ok(Reply::LineFault)
    }

    fn feed(&mut self, input: &Input) -> Result<Taken, NoMemory>
        ensures fed { (state_of self.old).is_parked ≡ false → input_fits (state_of self.old).kind input.now ≡ true →
            Fed (state_of self.old) input.now result (state_of self.new) }
        ensures takes_no_memory { IsOk result }
    {
        if passes_by(&mut self.powered, input) {
            return Ok(Taken::Quiet);
        }
        match input {
            Input::Scan {
                kind: _,
                bytes: _,
                label: _,
            } => Ok(Taken::Scan),
            _ => Ok(Taken::Fault),
        }
    }

    fn snapshot(&self) -> Result<Snapshot, NoMemory>
        ensures shown { IfOk result (λ shown. shown.0 ≡ (state_of self.now).plant) }
        ensures takes_no_memory { IsOk result }
    {
        Ok(Snapshot(Plant {
            powered: self.powered,
            mechanism: Mechanism::Scanner,
        }))
    }

    fn park(&mut self) {
        self.is_parked = true;
    }

    fn is_parked(&self) -> bool {
        self.is_parked
    }
}

impl Preview for PlainScanner {
    fn would(&self, _: &Order) -> Reply {
        Reply::LineFault
    }
}

impl Tears for PlainScanner {
    fn tear_off(&mut self) -> Result<(), NoMemory> {
        Ok(())
    }
}
