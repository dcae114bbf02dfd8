ghost use Rattle.std.specs.Prelude.{◌≡◌};

use pos_service::{Input, Kind, NoMemory, Order, Peripheral, Reply, Signs, Snapshot, Taken};

/// A driver that finds no memory for each other order or input, the first too; where it is mute, it finds none to show
/// its plant.
#[derive(Drop)]
pub struct Wanting<P: Peripheral> {
    inner: P,
    wants: bool,
    is_mute: bool,
    orders: u64,
}

impl<P: Peripheral> Wanting<P> {
    pub fn new(inner: P, is_mute: bool) -> Self
        ensures { result.inner ≡ inner }
    {
        Wanting {
            inner,
            wants: true,
            is_mute,
            orders: 0,
        }
    }
}

impl<P: Peripheral> Peripheral for Wanting<P> {
    ghost state = { λ w. record (P.state w.inner) { orders = w.orders } };

    fn kind(&self) -> Kind {
        self.inner.kind()
    }

    fn signs(&self) -> Signs {
        self.inner.signs()
    }

    fn ask(&mut self, order: &Order) -> Result<Reply, NoMemory> {
        self.orders = self.orders.saturating_add(1);
        self.wants = !self.wants;
        if !self.wants {
            return Err(NoMemory);
        }
        self.inner.ask(order)
    }

    fn feed(&mut self, input: &Input) -> Result<Taken, NoMemory> {
        self.wants = !self.wants;
        if !self.wants {
            return Err(NoMemory);
        }
        self.inner.feed(input)
    }

    fn snapshot(&self) -> Result<Snapshot, NoMemory> {
        match self.is_mute {
            true => Err(NoMemory),
            false => self.inner.snapshot(),
        }
    }

    fn park(&mut self) {
        self.inner.park();
    }

    fn is_parked(&self) -> bool {
        self.inner.is_parked()
    }
}
