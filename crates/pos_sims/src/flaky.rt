//! A flaky line to a peripheral.
ghost use Rattle.std.specs.Prelude.{◌≡◌, ◌+◌, ◌&&◌, true, false, nat_le, nat_lt};
ghost use Rattle.pos_drive.specs.Papers.{TearsOff};
ghost use Rattle.pos_service.specs.Peripherals.{Asked, Fed, Parks, input_fits, order_fits};
ghost use Rattle.pos_sims.specs.Flakies.{CountsOrder, Fails, KeepsSchedule, fails_next, flaky_of, state_of};

use crate::print_preview::PrintPreview;
use crate::roll::Roll;
use pos_drive::{Preview, Tears};
use pos_service::{Input, Kind, NoMemory, Order, Peripheral, Reply, Signs, Snapshot, Taken};
use std::alloc::Global;

/// A peripheral with a flaky line. The orders with the numbers `first` to `first + times - 1`, counted from 1, meet a
/// line fault and don't reach the peripheral; the others do.
///
/// The count stays at 18,446,744,073,709,551,615. What it is, shows and takes is the peripheral's. Its line also fails
/// when the peripheral's does.
#[derive(Drop)]
pub struct Flaky<P: Peripheral> {
    inner: P,
    first: u32,
    times: u32,
    orders: u64,
    faults: u64,
}

impl<P: Peripheral> Flaky<P> {
    /// Returns a flaky line to a peripheral that is in service.
    pub fn new(inner: P, first: u32, times: u32) -> Self
        requires { (P.Peripheral.state inner).is_parked ≡ false }
        ensures { result ≡ flaky_of inner first times }
    {
        Flaky {
            inner,
            first,
            times,
            orders: 0,
            faults: 0,
        }
    }
}

/// Returns whether a number is one of `times` numbers from `first` on.
fn is_among(number: u64, first: u32, times: u32) -> bool
    ensures { result ≡ (nat_le first number && nat_lt number (first + times)) }
{
    let first = u64::from(first);
    first <= number && number < first + u64::from(times)
}

impl<P: Peripheral> Peripheral for Flaky<P> {
    ghost state = { λ flaky. state_of P.Peripheral flaky };

    fn kind(&self) -> Kind {
        self.inner.kind()
    }

    fn signs(&self) -> Signs {
        self.inner.signs()
    }

    fn ask(&mut self, order: &Order) -> Result<Reply, NoMemory>
        ensures asked { let state = state_of P.Peripheral in
            (state self.old).is_parked ≡ false → order_fits (state self.old).kind order.now ≡ true →
            Asked (state self.old) order.now result (state self.new) }
        ensures counts { CountsOrder self.old self.new }
        ensures fails { fails_next self.old ≡ true → Fails self.old result self.new }
        ensures passes { let state = P.Peripheral.state in fails_next self.old ≡ false →
            (state self.old.inner).is_parked ≡ false → order_fits (state self.old.inner).kind order.now ≡ true →
            Asked (state self.old.inner) order.now result (state self.new.inner) }
        ensures faults { fails_next self.old ≡ false → self.new.faults ≡ self.old.faults }
    {
        self.orders = self.orders.saturating_add(1);
        if is_among(self.orders, self.first, self.times) {
            self.faults = self.faults.saturating_add(1);
            return Ok(Reply::LineFault);
        }
        self.inner.ask(order)
    }

    fn feed(&mut self, input: &Input) -> Result<Taken, NoMemory>
        ensures fed { let state = state_of P.Peripheral in
            (state self.old).is_parked ≡ false → input_fits (state self.old).kind input.now ≡ true →
            Fed (state self.old) input.now result (state self.new) }
        ensures schedule { KeepsSchedule self.old self.new }
    {
        self.inner.feed(input)
    }

    fn snapshot(&self) -> Result<Snapshot, NoMemory> {
        self.inner.snapshot()
    }

    fn park(&mut self)
        ensures parks { Parks (state_of P.Peripheral self.old) (state_of P.Peripheral self.new) }
        ensures schedule { KeepsSchedule self.old self.new }
    {
        self.inner.park();
    }

    fn is_parked(&self) -> bool {
        self.inner.is_parked()
    }
}

impl<P: Preview> Preview for Flaky<P> {
    fn would(&self, order: &Order) -> Reply {
        self.inner.would(order)
    }
}

impl<P: PrintPreview> PrintPreview for Flaky<P> {
    fn would_add(&self, alloc: Global, order: &Order) -> Result<Option<Roll>, NoMemory> {
        self.inner.would_add(alloc, order)
    }
}

impl<P: Tears> Tears for Flaky<P> {
    fn tear_off(&mut self) -> Result<(), NoMemory>
        ensures torn { TearsOff (state_of P.Peripheral self.old) result (state_of P.Peripheral self.new) }
        ensures schedule { KeepsSchedule self.old self.new }
    {
        self.inner.tear_off()
    }
}
