//! What the simulated peripherals of a profile are mounted in.
ghost use Rattle.std.specs.Prelude.{◌≡◌, IfOk};
ghost use Rattle.pos_run.specs.Simulations.{Mounts, as_it_is, wrapped_state};

use crate::wrapped::Wrapped;
use pos_profile::Entry;
use pos_service::{NoMemory, Peripheral};

/// Makes the peripherals of a counter from those that are simulated for a profile's entries.
pub trait Mount<P: Peripheral> {
    /// The relation of an entry, the peripheral that is simulated for it, and what that is mounted in.
    ghost mounts: { Mounts P };

    /// Returns the peripheral that a simulated one is mounted in, for its entry. The simulated one was given no order
    /// yet, its line has never failed, and the other is in the same state.
    ///
    /// # Errors
    ///
    /// [`NoMemory`] if memory ran out. Then what is simulated is ended.
    fn mount(&self, entry: &Entry, simulation: Wrapped) -> Result<P, NoMemory>
        requires fresh { (wrapped_state simulation).orders ≡ 0 }
        requires failures { (wrapped_state simulation).failures ≡ 0 }
        ensures state { IfOk result (λ mounted. P.Peripheral.state mounted ≡ wrapped_state simulation) }
        ensures mounts { IfOk result (λ mounted. mounts entry.now simulation mounted) };
}

/// Leaves what is simulated as it is.
pub struct AsSimulated;

impl Mount<Wrapped> for AsSimulated {
    ghost mounts = { as_it_is };

    fn mount(&self, _: &Entry, simulation: Wrapped) -> Result<Wrapped, NoMemory> {
        Ok(simulation)
    }
}
