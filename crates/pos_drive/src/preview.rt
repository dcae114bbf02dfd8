//! What a peripheral would reply to an order.
ghost use Rattle.std.specs.Prelude.{◌≡◌, false, true};
ghost use Rattle.pos_service.specs.Peripherals.{order_fits};
ghost use Rattle.pos_drive.specs.Previews.{Foretells};

use pos_service::{Order, Peripheral, Reply};

/// A peripheral that says before an order what it would reply.
pub trait Preview: Peripheral {
    /// Returns what it would reply to an order that it takes, if memory doesn't run out and its line doesn't fail.
    fn would(&self, order: &Order) -> Reply
        ensures { let state = Self.Peripheral.state self.now in
            state.is_parked ≡ false → order_fits state.kind order.now ≡ true →
            Foretells state.plant order.now result };
}
