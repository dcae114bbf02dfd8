//! The work on the output that is queued for devices (common chapter, asynchronous output).
ghost use Rattle.std.specs.Prelude.{◌≡◌, Some};
ghost use Rattle.pos_service.specs.Claims.{holder_at};
ghost use Rattle.pos_printer.specs.PrinterCalls.{OrdersOfWork, WorksAt};
ghost use Rattle.pos_profile.specs.Registries.{devices as registered};
ghost use Rattle.pos_counter.specs.KeptDevices.{AreDevicesSound, devices_in};
ghost use Rattle.pos_counter.specs.AtDevices.{IsAttachedAt, IsDoneAt};
ghost use Rattle.pos_counter.specs.Counters.{IsStepBeside, IsCounterSound};
ghost use Rattle.pos_counter.specs.Orders.{CountsAt};
ghost use Rattle.pos_counter.specs.Responses.{worked};
ghost use Rattle.pos_counter.specs.Steps.{WorkOn};

use crate::counter::Counter;
use crate::devices::Devices;
use crate::faults::WorkFault;
use pos_common::{Claims, Control};
use pos_disk::Disk;
use pos_service::{NoMemory, Peripheral, WorkResult};

impl<D: Disk, P: Peripheral> Counter<D, P> {
    /// Works on the first request of the control that holds the device of this name (common chapter, asynchronous
    /// output). It returns one of:
    ///
    /// - `Done`: the request is done and removed, and an OutputCompleteEvent is enqueued.
    /// - `Failed`: the request has failed and stays the first, and an ErrorEvent with EL_OUTPUT is enqueued.
    /// - `Idle`: there is nothing to do. The device is no printer, nobody holds it, the holder is disabled or has no
    ///   request, or its first one has failed.
    ///
    /// Work on a request gives the printer exactly one order, and idle work none.
    ///
    /// # Errors
    ///
    /// `NoDevice` if no device has the name or it has no peripheral, and `NoMemory` if memory ran out. Then nothing has
    /// changed, but if memory ran out the order may have been counted.
    pub fn work(&mut self, device: &[u8]) -> Result<WorkResult, WorkFault>
        requires sound { IsCounterSound P.Peripheral self.old }
        ensures step { IsStepBeside P.Peripheral self.old (WorkOn device.now) (worked result) self.new }
        ensures sound { IsCounterSound P.Peripheral self.new }
    {
        let Some((place, _)) = self.devices.find_served(device) else {
            return Err(WorkFault::NoDevice);
        };
        match work_there(&mut self.controls, place, &self.claims, &mut self.devices) {
            Ok(worked) => Ok(worked),
            Err(NoMemory) => Err(WorkFault::NoMemory),
        }
    }
}

/// Works on the output that is queued for the device at a place.
///
/// # Errors
///
/// `NoMemory` if memory ran out. Then nothing has changed, but the order may have been counted.
#[tactic(auto, using(crate::proofs::DeviceListLemmas::done_there, crate::proofs::OrderLemmas::counts_there))]
fn work_there<P: Peripheral>(
    controls: &mut [Control],
    place: usize,
    claims: &Claims,
    devices: &mut Devices<P>,
) -> Result<WorkResult, NoMemory>
    requires sound { AreDevicesSound P.Peripheral devices.old }
    requires attached { IsAttachedAt (devices_in P.Peripheral devices.old) place }
    ensures done { IsDoneAt (devices_in P.Peripheral devices.old) place
        (WorksAt (holder_at claims.now (Some place)) place result)
        controls.old controls.new (devices_in P.Peripheral devices.new) }
    ensures orders { CountsAt (registered P.Peripheral devices.old.registry) place (λ _. OrdersOfWork result)
        (registered P.Peripheral devices.new.registry) }
    ensures sound { AreDevicesSound P.Peripheral devices.new }
{
    let peripheral = devices.registry.serving(place);
    pos_printer::work(controls, place, claims, peripheral)
}
