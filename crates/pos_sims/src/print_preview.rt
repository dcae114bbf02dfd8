//! What an order would add to a receipt.
ghost use Rattle.std.specs.Prelude.{◌≡◌, true, Ok, None, IfOk, IfSome};
ghost use Rattle.pos_service.specs.Peripherals.{order_fits};
ghost use Rattle.pos_sims.specs.Additions.{Adds, PrintsNothing};

use crate::roll::Roll;
use pos_service::{NoMemory, Order, Peripheral};
use std::alloc::Global;

/// A peripheral that says before an order what it would print of it.
pub trait PrintPreview: Peripheral {
    /// Returns a roll with what the order would add to the receipt, after the line buffer that there is, and nothing
    /// else. It is `None` if the peripheral is no printer, or wouldn't carry the order out.
    ///
    /// # Errors
    ///
    /// [`NoMemory`] if memory ran out.
    fn would_add(&self, alloc: Global, order: &Order) -> Result<Option<Roll>, NoMemory>
        ensures adds { IfOk result (λ added. IfSome added (Adds (Self.Peripheral.state self.now).plant order.now)) }
        ensures nothing { let state = Self.Peripheral.state self.now in order_fits state.kind order.now ≡ true →
            result ≡ Ok None → PrintsNothing state.plant order.now };
}
