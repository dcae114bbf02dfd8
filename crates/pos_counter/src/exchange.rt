//! The exchange of peripherals: attaching and detaching.
ghost use Rattle.std.specs.Prelude.{◌≡◌, ℕ, Some, false, true, IfErr, IfOk};
ghost use Rattle.std.specs.List.{list_any};
ghost use Rattle.pos_service.specs.Hardware.{hardware_of};
ghost use Rattle.pos_profile.specs.Places.{place_of};
ghost use Rattle.pos_profile.specs.Registries.{PutsInto, devices as registered, names_of};
ghost use Rattle.pos_counter.specs.KeptDevices.{AreDevicesSound, slots_in};
ghost use Rattle.pos_counter.specs.Counters.{IsStepBeside, IsCounterSound};
ghost use Rattle.pos_counter.specs.Responses.{attached, detached};
ghost use Rattle.pos_counter.specs.Steps.{Attach, Detach, has_open};

use crate::counter::Counter;
use crate::devices::Devices;
use pos_common::Control;
use pos_disk::Disk;
use pos_service::{AttachFault, DetachFault, Peripheral};

impl<D: Disk, P: Peripheral> Counter<D, P> {
    /// Attaches a peripheral to the device of this name, which is vacant and of its kind. It takes no memory.
    ///
    /// # Errors
    ///
    /// With the peripheral as it was, and nothing changed:
    ///
    /// - `Unknown`: no device has the name. Hard Totals are none.
    /// - `InUse`: the device has its peripheral.
    /// - `KindDiffers`: the device is of another kind.
    pub fn attach(&mut self, name: &[u8], peripheral: P) -> Result<(), (AttachFault, P)>
        requires sound { IsCounterSound P.Peripheral self.old }
        requires unparked { (P.Peripheral.state peripheral).is_parked ≡ false }
        ensures step { IsStepBeside P.Peripheral self.old
            (Attach name.now (hardware_of (P.Peripheral.state peripheral)))
            (attached P.Peripheral.state result) self.new }
        ensures puts { PutsInto (slots_in self.old.devices) name.now peripheral result (slots_in self.new.devices) }
        ensures handed_back { IfErr result (λ refusal. refusal.1 ≡ peripheral) }
        ensures sound { IsCounterSound P.Peripheral self.new }
    {
        self.devices.registry.attach(name, peripheral)
    }

    /// Detaches the peripheral of the device of this name, which no control has open, and returns it. It is out of
    /// service then, and otherwise as it was. It takes no memory.
    ///
    /// # Errors
    ///
    /// In this order, and nothing has changed:
    ///
    /// - `Unknown`: no device has the name. Hard Totals are none.
    /// - `Vacant`: the device has no peripheral.
    /// - `InUse`: a control has the device open.
    pub fn detach(&mut self, name: &[u8]) -> Result<P, DetachFault>
        requires sound { IsCounterSound P.Peripheral self.old }
        ensures step { IsStepBeside P.Peripheral self.old
            (Detach name.now) (detached P.Peripheral.state result) self.new }
        ensures parked { IfOk result (λ peripheral. (P.Peripheral.state peripheral).is_parked ≡ true) }
        ensures sound { IsCounterSound P.Peripheral self.new }
    {
        let is_open = is_open(&self.controls, &self.devices, name);
        self.devices.registry.detach(name, is_open)
    }
}

/// Returns whether one of the controls has the first device with a name open.
fn is_open<P: Peripheral>(controls: &[Control], devices: &Devices<P>, name: &[u8]) -> bool
    requires { AreDevicesSound P.Peripheral devices.now }
    ensures { (place : ℕ) →
        place_of (names_of (registered P.Peripheral devices.now.registry)) name.now ≡ Some place
        → result ≡ list_any (λ control. has_open place control.control) controls.now }
{
    match devices.registry.find(name) {
        Some(place) => is_open_at(controls, place),
        None => false,
    }
}

/// Returns whether one of the controls has the device at a place open.
fn is_open_at(controls: &[Control], place: usize) -> bool
    ensures { result ≡ list_any (λ control. has_open place control.control) controls.now }
{
    controls.iter().any(|control| has_open(control, place))
}

/// Returns whether the control has the device at a place open.
fn has_open(control: &Control, place: usize) -> bool
    ensures { result ≡ has_open place control.now.control }
{
    control.place() == Some(place)
}
