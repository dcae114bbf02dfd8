//! A simulated cash drawer.
ghost use Rattle.std.specs.Prelude.{◌≡◌, true, false, IsOk, IfOk};
ghost use Rattle.pos_service.specs.Peripherals.{Asked, Fed, input_fits, order_fits};
ghost use Rattle.pos_sims.specs.Drawers.{drawer_state, state_of};

use crate::power::{off_reply, passes_by, reply_while};
use pos_drive::{Preview, Tears};
use pos_service::{
    Input, Kind, Mechanism, NoMemory, Order, PaperLevel, Peripheral, Plant, Reply, Signs, Snapshot,
    Taken,
};

/// A cash drawer whose line never fails and which takes no memory (chapter Cash Drawer).
#[derive(Drop)]
pub struct PlainDrawer {
    is_open: bool,
    powered: bool,
    is_parked: bool,
    orders: u64,
}

impl PlainDrawer {
    /// Returns a closed drawer that is on and in service.
    pub fn new() -> Self
        ensures { state_of result ≡ drawer_state false false }
    {
        PlainDrawer {
            is_open: false,
            powered: true,
            is_parked: false,
            orders: 0,
        }
    }
}

impl Peripheral for PlainDrawer {
    ghost state = { λ drawer. state_of drawer };

    fn kind(&self) -> Kind {
        Kind::Drawer
    }

    fn signs(&self) -> Signs {
        Signs {
            powered: self.powered,
            drawer_open: self.is_open,
            cover_open: false,
            paper: PaperLevel::Good,
        }
    }

    fn ask(&mut self, order: &Order) -> Result<Reply, NoMemory>
        ensures asked { (state_of self.old).is_parked ≡ false → order_fits (state_of self.old).kind order.now ≡ true →
            Asked (state_of self.old) order.now result (state_of self.new) }
        ensures takes_no_memory { IsOk result }
    {
        self.orders = self.orders.saturating_add(1);
        if let Some(off) = off_reply(self.powered) {
            return Ok(off);
        }
        match order {
            Order::OpenDrawer => {
                self.is_open = true;
                Ok(Reply::Done)
            }
            _ => Ok(Reply::LineFault),
        }
    }

    fn feed(&mut self, input: &Input) -> Result<Taken, NoMemory>
        ensures fed { (state_of self.old).is_parked ≡ false → input_fits (state_of self.old).kind input.now ≡ true →
            Fed (state_of self.old) input.now result (state_of self.new) }
        ensures takes_no_memory { IsOk result }
    {
        if passes_by(&mut self.powered, input) {
            return Ok(Taken::Quiet);
        }
        match input {
            Input::DrawerMoved(is_open) => {
                self.is_open = *is_open;
                Ok(Taken::Quiet)
            }
            _ => Ok(Taken::Fault),
        }
    }

    fn snapshot(&self) -> Result<Snapshot, NoMemory>
        ensures shown { IfOk result (λ shown. shown.0 ≡ (state_of self.now).plant) }
        ensures takes_no_memory { IsOk result }
    {
        Ok(Snapshot(Plant {
            powered: self.powered,
            mechanism: Mechanism::Drawer(self.is_open),
        }))
    }

    fn park(&mut self) {
        self.is_parked = true;
    }

    fn is_parked(&self) -> bool {
        self.is_parked
    }
}

impl Preview for PlainDrawer {
    fn would(&self, _: &Order) -> Reply {
        reply_while(self.powered, Reply::Done)
    }
}

impl Tears for PlainDrawer {
    fn tear_off(&mut self) -> Result<(), NoMemory> {
        Ok(())
    }
}
