//! A peripheral of any type.
ghost use Rattle.std.specs.Prelude.{◌≡◌, true, false};

use crate::faults::NoMemory;
use crate::input::{Input, Taken};
use crate::kind::Kind;
use crate::order::{Order, Reply};
use crate::peripheral::{Ends, Peripheral, park_and_end};
use crate::plant::Snapshot;
use crate::signs::Signs;

/// A boxed peripheral of any type. It ends only parked: whoever drops it has to show that.
pub struct PeripheralBox {
    device: Box<dyn Peripheral + Drop>,
}

impl Peripheral for PeripheralBox {
    ghost state = { λ b. (Peripheral-box b.device).state b.device.value };

    fn kind(&self) -> Kind {
        self.device.kind()
    }

    fn signs(&self) -> Signs {
        self.device.signs()
    }

    fn ask(&mut self, order: &Order) -> Result<Reply, NoMemory> {
        self.device.ask(order)
    }

    fn feed(&mut self, input: &Input) -> Result<Taken, NoMemory> {
        self.device.feed(input)
    }

    fn snapshot(&self) -> Result<Snapshot, NoMemory> {
        self.device.snapshot()
    }

    fn park(&mut self) {
        self.device.park();
    }

    fn is_parked(&self) -> bool {
        self.device.is_parked()
    }
}

impl Drop for PeripheralBox {
    fn drop(self)
        requires { (⟦<PeripheralBox as Peripheral>⟧.state self).is_parked ≡ true }
    {
        let PeripheralBox { device } = self;
        drop(device);
    }
}

impl Ends for PeripheralBox {
    fn end(self) {
        drop(self);
    }
}

impl PeripheralBox {
    /// Returns the box of a peripheral that is in service.
    pub fn new(device: Box<dyn Peripheral + Drop>) -> PeripheralBox
        requires { (state device).is_parked ≡ false }
        ensures { ⟦<PeripheralBox as Peripheral>⟧.state result ≡ state device }
    {
        PeripheralBox { device }
    }

    /// Takes the peripheral out of service, and ends it.
    pub fn end(self)
        requires { Unit {0} }
    {
        park_and_end(self);
    }
}
