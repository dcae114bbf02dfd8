//! The cash drawer of this till.
ghost use Rattle.std.specs.Prelude.{◌≡◌, false};
ghost use Rattle.pos_service.specs.declared.kind.Kind.TheVariants as kind;
ghost use Rattle.pos_service.specs.declared.plant.Mechanism.TheVariants as mechanism;

use pos_service::{
    Input, Kind, Mechanism, NoMemory, Order, PaperLevel, Peripheral, Plant, Reply, Signs, Snapshot,
    Taken,
};

/// The driver of a cash drawer. Its contracts are the trait's, which speak of the state that it says it has.
#[derive(Drop)]
pub struct Drawer {
    is_on: bool,
    is_open: bool,
    is_parked: bool,
    orders: u64,
}

impl Drawer {
    /// The driver of a closed drawer that is on, in service.
    pub fn new() -> Self
        ensures { result.is_parked ≡ false }
    {
        Drawer {
            is_on: true,
            is_open: false,
            is_parked: false,
            orders: 0,
        }
    }
}

impl Peripheral for Drawer {
    ghost state = { λ drawer. record {
      kind = kind.Drawer;
      plant = record { powered = drawer.is_on; mechanism = mechanism.Drawer drawer.is_open };
      is_parked = drawer.is_parked;
      failures = 0;
      orders = drawer.orders;
    } };

    fn kind(&self) -> Kind {
        Kind::Drawer
    }

    fn signs(&self) -> Signs {
        Signs {
            powered: self.is_on,
            drawer_open: self.is_open,
            cover_open: false,
            paper: PaperLevel::Good,
        }
    }

    fn ask(&mut self, _: &Order) -> Result<Reply, NoMemory> {
        self.orders = self.orders.saturating_add(1);
        if !self.is_on {
            return Ok(Reply::Offline);
        }
        self.is_open = true;
        Ok(Reply::Done)
    }

    fn feed(&mut self, input: &Input) -> Result<Taken, NoMemory> {
        match input {
            Input::PowerMoved(is_on) => self.is_on = *is_on,
            Input::DrawerMoved(is_open) if self.is_on => self.is_open = *is_open,
            _ => (),
        }
        Ok(Taken::Quiet)
    }

    fn snapshot(&self) -> Result<Snapshot, NoMemory> {
        Ok(Snapshot(Plant {
            powered: self.is_on,
            mechanism: Mechanism::Drawer(self.is_open),
        }))
    }

    fn park(&mut self) {
        self.is_parked = true;
    }

    fn is_parked(&self) -> bool {
        self.is_parked
    }
}
