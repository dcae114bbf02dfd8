//! A peripheral whose orders are counted.
ghost use Rattle.std.specs.Prelude.{◌≡◌, true, false};
ghost use Rattle.pos_service.specs.Peripherals.{Asked, counted, order_fits};
ghost use Rattle.pos_sims.specs.Recorders.{recorder_of, state_of};

use crate::print_preview::PrintPreview;
use crate::roll::Roll;
use pos_drive::{Preview, Tears};
use pos_service::{Input, Kind, NoMemory, Order, Peripheral, Reply, Signs, Snapshot, Taken};
use std::alloc::Global;

/// A peripheral whose orders are counted, whatever comes of them. Each is passed on to the inner peripheral, and what
/// this one is, shows and takes is what that one does.
#[derive(Drop)]
pub struct Recorder<P: Peripheral> {
    inner: P,
    asks: u64,
}

impl<P: Peripheral> Recorder<P> {
    /// Returns a recorder of a peripheral that is in service. It has counted none of its orders.
    pub fn new(inner: P) -> Self
        requires { (P.Peripheral.state inner).is_parked ≡ false }
        ensures { result ≡ recorder_of inner }
    {
        Recorder { inner, asks: 0 }
    }

    /// Returns how many orders came. At 18,446,744,073,709,551,615 the count stays.
    pub fn asks(&self) -> u64
        ensures { result ≡ (state_of P.Peripheral self.now).orders }
    {
        self.asks
    }
}

impl<P: Peripheral> Peripheral for Recorder<P> {
    ghost state = { λ recorder. state_of P.Peripheral recorder };

    fn kind(&self) -> Kind {
        self.inner.kind()
    }

    fn signs(&self) -> Signs {
        self.inner.signs()
    }

    fn ask(&mut self, order: &Order) -> Result<Reply, NoMemory>
        ensures asked { let state = state_of P.Peripheral in
            (state self.old).is_parked ≡ false → order_fits (state self.old).kind order.now ≡ true →
            Asked (state self.old) order.now result (state self.new) }
        ensures counts { self.new.asks ≡ counted self.old.asks }
        ensures passes { let state = P.Peripheral.state in
            (state self.old.inner).is_parked ≡ false → order_fits (state self.old.inner).kind order.now ≡ true →
            Asked (state self.old.inner) order.now result (state self.new.inner) }
    {
        self.asks = self.asks.saturating_add(1);
        self.inner.ask(order)
    }

    fn feed(&mut self, input: &Input) -> Result<Taken, NoMemory> {
        self.inner.feed(input)
    }

    fn snapshot(&self) -> Result<Snapshot, NoMemory> {
        self.inner.snapshot()
    }

    fn park(&mut self) {
        self.inner.park();
    }

    fn is_parked(&self) -> bool {
        self.inner.is_parked()
    }
}

impl<P: Preview> Preview for Recorder<P> {
    fn would(&self, order: &Order) -> Reply {
        self.inner.would(order)
    }
}

impl<P: PrintPreview> PrintPreview for Recorder<P> {
    fn would_add(&self, alloc: Global, order: &Order) -> Result<Option<Roll>, NoMemory> {
        self.inner.would_add(alloc, order)
    }
}

impl<P: Tears> Tears for Recorder<P> {
    fn tear_off(&mut self) -> Result<(), NoMemory> {
        self.inner.tear_off()
    }
}
