//! What serves a device.
ghost use Rattle.std.specs.Prelude.{◌≡◌, Bool, true, false, IfOk};
ghost use Rattle.pos_service.specs.Peripherals.{PeripheralState, IsInRange, IsPlantOf, Asked, Fed, Parks, order_fits, input_fits, signs_of};

use crate::faults::NoMemory;
use crate::input::{Input, Taken};
use crate::kind::Kind;
use crate::order::{Order, Reply};
use crate::plant::Snapshot;
use crate::signs::Signs;

/// A peripheral, which serves a device: a simulation, or the driver of real hardware.
///
/// A request to one that is out of service, or one that doesn't fit its kind, may have any result and any effect. A box
/// of one ends only parked: see `PeripheralBox`.
pub trait Peripheral {
    /// Its kind, its plant, whether it is parked, how often its line has failed, and how many orders it was given.
    ghost state: { Self → PeripheralState };

    /// Returns what it is, which never changes.
    fn kind(&self) -> Kind
        ensures kind { result ≡ (state self.now).kind }
        ensures in_range { IsInRange result }
        ensures plant { IsPlantOf result (state self.now).plant };

    /// Returns what it shows of itself.
    fn signs(&self) -> Signs
        ensures { result ≡ signs_of (state self.now).kind (state self.now).plant };

    /// Carries out an order whole, or returns why it did nothing. Each order counts, whatever comes of it, and so does
    /// each failure of the line. A count stays at its last value, 18,446,744,073,709,551,615.
    ///
    /// # Errors
    ///
    /// [`NoMemory`] if memory ran out. Then nothing but the count of orders has changed.
    fn ask(&mut self, order: &Order) -> Result<Reply, NoMemory>
        ensures { (state self.old).is_parked ≡ false → order_fits (state self.old).kind order.now ≡ true →
            Asked (state self.old) order.now result (state self.new) };

    /// Takes what happens from outside, and returns how.
    ///
    /// # Errors
    ///
    /// [`NoMemory`] if memory ran out. Then nothing has changed.
    fn feed(&mut self, input: &Input) -> Result<Taken, NoMemory>
        ensures { (state self.old).is_parked ≡ false → input_fits (state self.old).kind input.now ≡ true →
            Fed (state self.old) input.now result (state self.new) };

    /// Returns a copy of its plant.
    ///
    /// # Errors
    ///
    /// [`NoMemory`] if memory ran out.
    fn snapshot(&self) -> Result<Snapshot, NoMemory>
        ensures { IfOk result (λ shown. shown.0 ≡ (state self.now).plant) };

    /// Takes it out of service, which takes no memory.
    fn park(&mut self)
        ensures { Parks (state self.old) (state self.new) };

    /// Returns whether it is out of service.
    fn is_parked(&self) -> bool
        ensures { result ≡ (state self.now).is_parked };
}

/// A peripheral that code over any type of peripheral can end, once it is out of service.
pub trait Ends: Peripheral {
    /// Ends it.
    fn end(self)
        requires { (Self.state self).is_parked ≡ true };
}

/// Takes a peripheral out of service, and ends it. It takes no memory.
pub fn park_and_end<P: Ends>(mut peripheral: P)
    requires { Unit {0} }
{
    peripheral.park();
    peripheral.end();
}
