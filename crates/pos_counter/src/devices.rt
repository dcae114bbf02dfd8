//! The devices of a counter, by their names and places.
ghost use Rattle.std.specs.Prelude.{◌≡◌, [], None, Some, IfOk, MatchOption, map, slice_get};
ghost use Rattle.pos_profile.specs.Registries.{AreParked, devices as registered, devices_of as registered_in, parked};
ghost use Rattle.pos_service.specs.Hardware.{hardware_of, signs_in};
ghost use Rattle.pos_counter.specs.Machine.{device_at, found_among, found_at, kind_in, place_of, hardware_in};
ghost use Rattle.pos_counter.specs.KeptDevices.{AreDevicesSound, devices_in, profile_devices};

use pos_profile::{Profile, Registry, Slot};
use pos_service::{Category, Kind, NoMemory, OpenDevice, OpenTarget, Peripheral, Signs};
use std::alloc::Global;

/// The devices of a profile, all of which may have a peripheral, in its order. Hard Totals are none of them.
pub(crate) struct Devices<P> {
    pub(crate) registry: Registry<P>,
}

impl<P: Peripheral> Devices<P> {
    /// Returns the devices of a profile, each vacant. The slots are an empty list, which becomes a part of them.
    ///
    /// # Errors
    ///
    /// [`NoMemory`] if memory ran out. Then the list is ended.
    pub(crate) fn new(
        alloc: Global,
        profile: &Profile,
        slots: Vec<Slot<P>>,
    ) -> Result<Self, NoMemory>
        requires empty { slots.items ≡ [] }
        ensures vacant { IfOk result (λ devices.
            devices_in P.Peripheral devices ≡ profile_devices profile.now.devices) }
        ensures sound { IfOk result (λ devices. AreDevicesSound P.Peripheral devices) }
    {
        let registry = Registry::new(alloc, profile, slots)?;
        Ok(Devices { registry })
    }

    /// Returns the place of the first device with a name.
    pub(crate) fn find(&self, name: &[u8]) -> Option<usize>
        requires { AreDevicesSound P.Peripheral self.now }
        ensures { result ≡ place_of (devices_in P.Peripheral self.now) name.now }
    {
        self.registry.find(name)
    }

    /// Returns the place of the first device with a name, and its peripheral. It is `None` if there is no such device
    /// or it is vacant.
    pub(crate) fn find_served(&self, name: &[u8]) -> Option<(usize, &P)>
        requires { AreDevicesSound P.Peripheral self.now }
        ensures { let devices = devices_in P.Peripheral self.now in
            let at = place_of devices name.now in
            MatchOption result (hardware_in (device_at devices at) ≡ None) (λ found. (at ≡ Some found.0)
            × (hardware_in (slice_get devices found.0) ≡ Some (hardware_of (P.Peripheral.state found.1.now)))) }
    {
        let place = self.find(name)?;
        let peripheral = self.registry.peripheral(place)?;
        Some((place, peripheral))
    }

    /// Returns what a control of a category finds under a name, among these devices.
    pub(crate) fn find_for(&self, category: Category, name: &[u8]) -> OpenTarget
        requires { AreDevicesSound P.Peripheral self.now }
        ensures { result ≡ found_among (devices_in P.Peripheral self.now) category name.now }
    {
        let Some(place) = self.find(name) else {
            return OpenTarget::NotThere;
        };
        self.find_at(category, place)
    }

    /// Returns what a control of a category finds at the place of a device.
    fn find_at(&self, category: Category, place: usize) -> OpenTarget
        ensures { let devices = devices_in P.Peripheral self.now in
            result ≡ found_at category (Some place) (device_at devices (Some place)) }
    {
        let Some(kind) = self.registry.kind(place) else {
            return OpenTarget::NotThere;
        };
        if !category.serves(kind) {
            return OpenTarget::NotThere;
        }
        if self.registry.peripheral(place).is_none() {
            return OpenTarget::Vacant;
        }
        OpenTarget::There(OpenDevice::At(place))
    }

    /// Returns the kind of the device at the place.
    pub(crate) fn kind_at(&self, place: Option<usize>) -> Option<Kind>
        ensures { result ≡ kind_in (device_at (devices_in P.Peripheral self.now) place) }
    {
        match place {
            Some(place) => self.registry.kind(place),
            None => None,
        }
    }

    /// Ends the devices, and returns them, each once, in the profile's order. Their peripherals are taken out of
    /// service, and are otherwise as they were.
    pub(crate) fn into_entries(self) -> Vec<Slot<P>>
        requires { Unit {0} }
        ensures entries { registered_in P.Peripheral result.items ≡ map parked (registered P.Peripheral self.registry) }
        ensures parked { AreParked (registered_in P.Peripheral result.items) }
    {
        let Devices { registry } = self;
        registry.into_entries()
    }

    /// Returns the signs of the peripheral at the place, or those of a vacant device.
    pub(crate) fn signs_at(&self, place: Option<usize>) -> Signs
        ensures { let devices = devices_in P.Peripheral self.now in
            result ≡ signs_in (hardware_in (device_at devices place)) }
    {
        if let Some(place) = place {
            if let Some(peripheral) = self.registry.peripheral(place) {
                return peripheral.signs();
            }
        }
        Signs::vacant()
    }
}
