//! Taking away the paper that a device has printed.
ghost use Rattle.std.specs.Prelude.{◌≡◌, List, MatchResult, false};
ghost use Rattle.pos_common.specs.KeptControls.{KeptControl};
ghost use Rattle.pos_drive.specs.Papers.{TearsOff as TearsOffOne};
ghost use Rattle.pos_service.specs.Hardware.{StaysInService};
ghost use Rattle.pos_counter.specs.AtDevices.{IsAttachedAt, IsDoneAt};
ghost use Rattle.pos_counter.specs.Counters.{IsCounterSound};
ghost use Rattle.pos_counter.specs.Hosts.{hosts_in, hosts_of};
ghost use Rattle.pos_counter.specs.KeptDevices.{AreDevicesSound, devices_in, slots_in};
ghost use Rattle.pos_counter.specs.Paper.{IsTorn, TearsOff};

use crate::counter::Counter;
use crate::devices::Devices;
use pos_disk::Disk;
use pos_drive::Hosted;
use pos_service::NoMemory;

impl<D: Disk, P: Hosted> Counter<D, P> {
    /// Takes the printed paper of the device of this name away, and returns true: a printer keeps no line and no cut,
    /// only the line that has begun. It returns false, and nothing changes, if no device has the name or it has no
    /// peripheral.
    ///
    /// # Errors
    ///
    /// [`NoMemory`] if memory ran out. Then nothing has changed.
    pub fn tear_off(&mut self, device: &[u8]) -> Result<bool, NoMemory>
        requires sound { IsCounterSound P.Peripheral self.old }
        ensures torn { TearsOff P.Peripheral device.now self.old result self.new }
        ensures hosts { hosts_in P.Awaits.course self.new ≡ hosts_in P.Awaits.course self.old }
        ensures sound { IsCounterSound P.Peripheral self.new }
    {
        let Some((place, _)) = self.devices.find_served(device) else {
            return Ok(false);
        };
        match self.devices.tear_off(place) {
            Ok(()) => Ok(true),
            Err(NoMemory) => Err(NoMemory),
        }
    }
}

impl<P: Hosted> Devices<P> {
    /// Takes the printed paper of the device at a place away, which has a peripheral.
    ///
    /// # Errors
    ///
    /// [`NoMemory`] if memory ran out. Then nothing has changed.
    fn tear_off(&mut self, place: usize) -> Result<(), NoMemory>
        requires sound { AreDevicesSound P.Peripheral self.old }
        requires attached { IsAttachedAt (devices_in P.Peripheral self.old) place }
        ensures done { let seen = devices_in P.Peripheral in (helds : List KeptControl) → MatchResult result
            (λ done. IsDoneAt (seen self.old) place IsTorn helds helds (seen self.new))
            (λ want. seen self.new ≡ seen self.old) }
        ensures hosts { hosts_of P.Awaits.course (slots_in self.new) ≡ hosts_of P.Awaits.course (slots_in self.old) }
        ensures sound { AreDevicesSound P.Peripheral self.new }
    {
        let peripheral = self.registry.serving(place);
        tear_with(peripheral)
    }
}

/// Takes the printed paper of a peripheral away.
///
/// # Errors
///
/// [`NoMemory`] if memory ran out. Then nothing has changed.
fn tear_with<P: Hosted>(peripheral: &mut P) -> Result<(), NoMemory>
    requires unparked { (P.Peripheral.state peripheral.old).is_parked ≡ false }
    ensures torn { TearsOffOne (P.Peripheral.state peripheral.old) result (P.Peripheral.state peripheral.new) }
    ensures course { P.Awaits.course peripheral.new ≡ P.Awaits.course peripheral.old }
    ensures in_service { let state = P.Peripheral.state in
        StaysInService (state peripheral.old) (state peripheral.new) }
{
    peripheral.tear_off()
}
