//! A place of a registry, and how what serves it ends.
ghost use Rattle.std.specs.Prelude.{◌≡◌, Some, is_some, true};
ghost use Rattle.std.specs.Borrow.{sem};
ghost use Rattle.pos_profile.specs.Lending.{slot_lends};
ghost use Rattle.pos_profile.specs.Registries.{device_of, parked, AreParked, devices_of};

use pos_service::{Bytes, Ends, Kind, Peripheral};

/// A device of a registry, and the peripheral that serves it.
pub struct Slot<P> {
    /// The name by which controls open the device.
    pub name: Bytes,
    /// What its peripheral has to be.
    pub kind: Kind,
    /// Its peripheral; none if the device is vacant.
    pub peripheral: Option<P>,
}

impl<P> Slot<P> {
    /// Lends what serves the device, which is not vacant.
    pub(crate) fn serving(&mut self) -> &mut P
        requires { is_some self.old.peripheral ≡ true }
        ensures* lends { sem 𝓛 (slot_lends P.row self.entry result) }
        ensures value { self.old.peripheral ≡ Some result.now }
    {
        match &mut self.peripheral {
            Some(peripheral) => peripheral,
            None => unreachable!(),
        }
    }
}

impl<P: Peripheral> Slot<P> {
    /// Takes the device's peripheral out of service, if it has one.
    pub(crate) fn park(&mut self)
        requires { Unit {0} }
        ensures { device_of P.Peripheral self.new ≡ parked (device_of P.Peripheral self.old) }
    {
        if let Some(peripheral) = &mut self.peripheral {
            peripheral.park();
        }
    }
}

/// Ends the entries of a registry that was taken apart, each with what served it, which is out of service.
pub fn end_all<P: Ends>(mut entries: Vec<Slot<P>>)
    requires { AreParked (devices_of P.Peripheral entries.items) }
{
    while let Some(entry) = entries.pop() {
        let Slot {
            name: _,
            kind: _,
            peripheral,
        } = entry;
        if let Some(peripheral) = peripheral {
            peripheral.end();
        }
    }
    entries.destroy_empty();
}
