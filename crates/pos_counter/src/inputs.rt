//! What happens at devices from outside, and their snapshots.
ghost use Rattle.std.specs.Prelude.{◌≡◌, ◌<◌, Some, false, true};
ghost use Rattle.pos_service.specs.Hardware.{StaysInService, TakenAt, hardware_of};
ghost use Rattle.pos_service.specs.Peripherals.{input_fits};
ghost use Rattle.pos_common.specs.KeptControls.{controls_of};
ghost use Rattle.pos_profile.specs.Registries.{devices as registered};
ghost use Rattle.pos_counter.specs.KeptDevices.{AreDevicesSound, devices_in};
ghost use Rattle.pos_counter.specs.AtDevices.{FitsAt, IsDoneAt};
ghost use Rattle.pos_counter.specs.Counters.{IsStepBeside, IsCounterSound};
ghost use Rattle.pos_counter.specs.Orders.{CountsAt};
ghost use Rattle.pos_counter.specs.Responses.{taken_in, shown};
ghost use Rattle.pos_counter.specs.Steps.{InputTo, Snapshot as SnapshotOf};

use crate::counter::Counter;
use crate::devices::Devices;
use crate::faults::{InputFault, SnapshotFault};
use pos_common::Control;
use pos_disk::Disk;
use pos_service::{Input, Kind, NoMemory, Peripheral, Snapshot};
use std::alloc::Global;

impl<D: Disk, P: Peripheral> Counter<D, P> {
    /// Passes an input on to the device of this name. Each control that has it open and enabled gets the events of it
    /// (common chapter, data events, error handling and device power reporting).
    ///
    /// # Errors
    ///
    /// Nothing has changed then:
    ///
    /// - `NoDevice`: no device has the name, or it has no peripheral.
    /// - `WrongInput`: a peripheral of its kind has no such input.
    /// - `NoMemory`: memory ran out.
    pub fn input(&mut self, device: &[u8], input: &Input) -> Result<(), InputFault>
        requires sound { IsCounterSound P.Peripheral self.old }
        ensures step { IsStepBeside P.Peripheral self.old (InputTo device.now input.now) (taken_in result) self.new }
        ensures sound { IsCounterSound P.Peripheral self.new }
    {
        let Some((place, peripheral)) = self.devices.find_served(device) else {
            return Err(InputFault::NoDevice);
        };
        if !input.fits(peripheral.kind()) {
            return Err(InputFault::WrongInput);
        }
        match input_there(
            self.alloc,
            &mut self.controls,
            place,
            &mut self.devices,
            input,
        ) {
            Ok(()) => Ok(()),
            Err(NoMemory) => Err(InputFault::NoMemory),
        }
    }

    /// Returns what the device of this name is physically.
    ///
    /// # Errors
    ///
    /// `NoDevice` if no device has the name or it has no peripheral, and `NoMemory` if memory ran out.
    pub fn snapshot(&self, device: &[u8]) -> Result<Snapshot, SnapshotFault>
        requires sound { IsCounterSound P.Peripheral self.now }
        ensures { IsStepBeside P.Peripheral self.now (SnapshotOf device.now) (shown result) self.now }
    {
        let Some((_, peripheral)) = self.devices.find_served(device) else {
            return Err(SnapshotFault::NoDevice);
        };
        match peripheral.snapshot() {
            Ok(snapshot) => Ok(snapshot),
            Err(_) => Err(SnapshotFault::NoMemory),
        }
    }
}

/// Passes an input that fits on to the peripheral of the device at a place.
///
/// # Errors
///
/// `NoMemory` if memory ran out. Then nothing has changed.
fn input_there<P: Peripheral>(
    alloc: Global,
    controls: &mut [Control],
    place: usize,
    devices: &mut Devices<P>,
    input: &Input,
) -> Result<(), NoMemory>
    requires sound { AreDevicesSound P.Peripheral devices.old }
    requires fits { FitsAt (devices_in P.Peripheral devices.old) place input.now }
    ensures done { IsDoneAt (devices_in P.Peripheral devices.old) place (TakenAt input.now place result)
        controls.old controls.new (devices_in P.Peripheral devices.new) }
    ensures orders { CountsAt (registered P.Peripheral devices.old.registry) place (λ _ was now. now ≡ was)
        (registered P.Peripheral devices.new.registry) }
    ensures sound { AreDevicesSound P.Peripheral devices.new }
{
    let peripheral = devices.registry.serving(place);
    input_at(alloc, controls, place, peripheral, input)
}

/// Passes an input that fits on to a peripheral, by the crate of its category.
///
/// # Errors
///
/// `NoMemory` if memory ran out. Then nothing has changed.
fn input_at<P: Peripheral>(
    alloc: Global,
    controls: &mut [Control],
    place: usize,
    peripheral: &mut P,
    input: &Input,
) -> Result<(), NoMemory>
    requires unparked { (P.Peripheral.state peripheral.old).is_parked ≡ false }
    requires fits { input_fits (P.Peripheral.state peripheral.old).kind input.now ≡ true }
    ensures taken { let state = P.Peripheral.state in TakenAt input.now place result
        (controls_of controls.old) (hardware_of (state peripheral.old))
        (controls_of controls.new) (hardware_of (state peripheral.new)) }
    ensures orders { let state = P.Peripheral.state in (state peripheral.new).orders ≡ (state peripheral.old).orders }
    ensures in_service { let state = P.Peripheral.state in
        StaysInService (state peripheral.old) (state peripheral.new) }
{
    match peripheral.kind() {
        Kind::Drawer => pos_drawer::input(alloc, controls, place, peripheral, input),
        Kind::Scanner => pos_scanner::input(alloc, controls, place, peripheral, input),
        Kind::Display {
            rows: _,
            columns: _,
        } => pos_display::input(alloc, controls, place, peripheral, input),
        Kind::Printer { chars: _, near: _ } => {
            pos_printer::input(alloc, controls, place, peripheral, input)
        }
    }
}
