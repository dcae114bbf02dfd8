//! The spares of a counter.
ghost use Rattle.std.specs.Prelude.{◌≡◌, false, None, Some, All, IfSome, option_map};
ghost use Rattle.pos_run.specs.Spares.{AreSparesSound, IsEmptyAt, IsInService, spare_at, spares_in, states_in, with_spare};

use pos_service::{Ends, Peripheral, park_and_end};

/// Peripherals in service that no device has, by their numbers, counted from 1. The place of one that was attached is
/// empty. Only `park_all` or `into_peripherals` ends them.
pub struct Spares<P> {
    peripherals: Vec<Option<P>>,
}

impl<P: Peripheral> Spares<P> {
    /// Returns spares in the order of their numbers, each of which is in service. It takes no memory.
    pub fn new(peripherals: Vec<Option<P>>) -> Self
        requires { All IsInService (states_in P.Peripheral peripherals.items) }
        ensures spares { spares_in P.Peripheral result ≡ states_in P.Peripheral peripherals.items }
        ensures kept { result.peripherals ≡ peripherals }
        ensures sound { AreSparesSound P.Peripheral result }
    {
        Spares { peripherals }
    }

    /// Takes the spare of a number, and returns it. It is `None` if there is no such number, or its place is empty.
    pub fn take(&mut self, number: u32) -> Option<P>
        requires sound { AreSparesSound P.Peripheral self.old }
        ensures taken { option_map P.Peripheral.state result ≡ spare_at (spares_in P.Peripheral self.old) number }
        ensures left { spares_in P.Peripheral self.new ≡ with_spare (spares_in P.Peripheral self.old) number None }
        ensures in_service { IfSome result (λ peripheral. (P.Peripheral.state peripheral).is_parked ≡ false) }
        ensures sound { AreSparesSound P.Peripheral self.new }
    {
        if number == 0 || number as usize > self.peripherals.len() {
            return None;
        }
        self.peripherals[number as usize - 1].take()
    }

    /// Puts a peripheral that is in service into the place of a number, which is empty.
    pub fn put(&mut self, number: u32, peripheral: P)
        requires sound { AreSparesSound P.Peripheral self.old }
        requires empty { IsEmptyAt (spares_in P.Peripheral self.old) number }
        requires unparked { (P.Peripheral.state peripheral).is_parked ≡ false }
        ensures spares { spares_in P.Peripheral self.new
            ≡ with_spare (spares_in P.Peripheral self.old) number (Some (P.Peripheral.state peripheral)) }
        ensures sound { AreSparesSound P.Peripheral self.new }
    {
        match self.peripherals[number as usize - 1].replace(peripheral) {
            None => {}
            Some(_) => unreachable!(),
        }
    }

    /// Returns the spares that are left, in the order of their numbers. It takes no memory.
    pub fn into_peripherals(self) -> Vec<Option<P>>
        requires { Unit {0} }
        ensures { states_in P.Peripheral result.items ≡ spares_in P.Peripheral self }
    {
        let Spares { peripherals } = self;
        peripherals
    }
}

impl<P: Peripheral + Ends> Spares<P> {
    /// Takes the spares that are left out of service, and ends them. It takes no memory.
    pub fn park_all(self)
        requires { Unit {0} }
    {
        end_peripherals(self.into_peripherals());
    }
}

/// Takes peripherals out of service, and ends them. It takes no memory.
pub(crate) fn end_peripherals<P: Ends>(mut peripherals: Vec<Option<P>>)
    requires { Unit {0} }
{
    while let Some(spare) = peripherals.pop() {
        if let Some(peripheral) = spare {
            park_and_end(peripheral);
        }
    }
    peripherals.destroy_empty();
}
