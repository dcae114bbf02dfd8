//! The peripherals that serve the devices of a profile.
ghost use Rattle.std.specs.Prelude.{◌≡◌, ◌≢◌, ◌<◌, ◌≤◌, [], None, Some, true, false, IfOk, IfErr, IfSome, is_some, slice_get, map, length, vec_capacity};
ghost use Rattle.std.specs.Option.{option_map};
ghost use Rattle.std.specs.Borrow.{sem};
ghost use Rattle.pos_service.specs.Hardware.{StaysInService};
ghost use Rattle.pos_profile.specs.Lending.{registry_lends, registry_with};
ghost use Rattle.pos_profile.specs.Places.{IsIndexOf, place_of};
ghost use Rattle.pos_profile.specs.Registries.{AreParked, Attaches, Detaches, IsNamed, IsPut, IsRegistrySound, MayServe, PutsInto, device_of, devices, devices_of, kind_at, names_of, parked, peripheral_at, planned_of, standing_at, vacant, vacant_devices, with_peripheral};

use crate::laws::is_profile;
use crate::places::Places;
use crate::plans::{Planned, plan};
use crate::profile::Profile;
use crate::slot::Slot;
use pos_service::{AttachFault, DetachFault, Kind, NoMemory, Peripheral};
use std::alloc::Global;

/// The devices of a profile that have a peripheral, in its order, each with what serves it. Only `into_entries` ends
/// it.
///
/// Hard Totals have no peripheral, and so no place here.
pub struct Registry<P> {
    places: Places,
    slots: Vec<Slot<P>>,
}

/// Returns whether kinds are the same.
fn is_same(one: Kind, other: Kind) -> bool
    ensures same { result ≡ true → one ≡ other }
    ensures differ { result ≡ false → one ≢ other }
{
    one == other
}

/// Puts the devices that are planned into an empty list with room for them, each vacant.
fn fill<P: Peripheral>(mut slots: Vec<Slot<P>>, plan: Vec<Planned>) -> Vec<Slot<P>>
    requires empty { slots.items ≡ [] }
    requires room { length plan.items ≤ vec_capacity slots }
    ensures { devices_of P.Peripheral result.items ≡ map vacant plan.items }
{
    for planned in plan {
        let Planned { name, kind } = planned;
        slots.push_reserved(Slot {
            name,
            kind,
            peripheral: None,
        });
    }
    slots
}

/// Returns the plan of a profile's devices, and the places of their names.
fn prepare(alloc: Global, profile: &Profile) -> Result<(Vec<Planned>, Places), NoMemory>
    ensures planned { IfOk result (λ made. made.0.items ≡ planned_of profile.now.devices) }
    ensures index { IfOk result (λ made. IsIndexOf made.1 (map (λ planned. planned.name) made.0.items)) }
{
    let plan = plan(alloc, profile.devices())?;
    let places = Places::of(alloc, &plan)?;
    Ok((plan, places))
}

impl<P: Peripheral> Registry<P> {
    /// Returns the registry of a profile's devices, each vacant. An empty list becomes its list of devices.
    ///
    /// # Errors
    ///
    /// [`NoMemory`] if memory ran out. Then the empty list is dropped.
    pub fn new(alloc: Global, profile: &Profile, mut slots: Vec<Slot<P>>) -> Result<Self, NoMemory>
        requires empty { slots.items ≡ [] }
        ensures vacant { IfOk result (λ registry.
            devices P.Peripheral registry ≡ vacant_devices profile.now.devices) }
        ensures sound { IfOk result (λ registry. IsRegistrySound P.Peripheral registry) }
    {
        is_profile(profile);
        let Ok((plan, places)) = prepare(alloc, profile) else {
            slots.destroy_empty();
            return Err(NoMemory);
        };
        if slots.reserve(plan.len()).is_err() {
            slots.destroy_empty();
            return Err(NoMemory);
        }
        Ok(Registry {
            places,
            slots: fill(slots, plan),
        })
    }

    /// Returns the place of the first device with a name, or `None` if there is none.
    pub fn find(&self, name: &[u8]) -> Option<usize>
        requires { IsRegistrySound P.Peripheral self.now }
        ensures { result ≡ place_of (names_of (devices P.Peripheral self.now)) name.now }
    {
        self.places.find(name)
    }

    /// Returns how many devices have a place.
    pub fn count(&self) -> usize
        ensures { result ≡ length (devices P.Peripheral self.now) }
    {
        self.slots.len()
    }

    /// Returns what the peripheral of the device at a place has to be, or `None` if there is no such place.
    pub fn kind(&self, place: usize) -> Option<Kind>
        ensures { result ≡ kind_at (devices P.Peripheral self.now) place }
    {
        match self.slots.get(place) {
            Some(slot) => Some(slot.kind),
            None => None,
        }
    }

    /// Returns what serves the device at a place, or `None` if it is vacant or there is no such place.
    pub fn peripheral(&self, place: usize) -> Option<&P>
        ensures { option_map (λ found. P.Peripheral.state found.now) result
            ≡ standing_at (devices P.Peripheral self.now) place }
    {
        match self.slots.get(place) {
            Some(slot) => slot.peripheral.as_ref(),
            None => None,
        }
    }

    /// Returns the device at a place with what serves it, or `None` if there is no such place.
    pub fn slot(&self, place: usize) -> Option<&Slot<P>>
        ensures { option_map (λ found. found.now) result ≡ slice_get self.now.slots.items place }
    {
        self.slots.get(place)
    }

    /// Lends what serves the device at a place, which is not vacant. The registry stays sound if this stays in service
    /// and of its kind.
    pub fn serving(&mut self, place: usize) -> &mut P
        requires sound { IsRegistrySound P.Peripheral self.old }
        requires served { is_some (standing_at (devices P.Peripheral self.old) place) ≡ true }
        ensures* lends { sem 𝓛 (registry_lends P.row self.entry place result) }
        ensures value { standing_at (devices P.Peripheral self.old) place
            ≡ Some (P.Peripheral.state result.now) }
        ensures is { peripheral_at self.old.slots.items place ≡ Some result.now }
        ensures devices { (left : P) → devices P.Peripheral (registry_with self.old place left)
            ≡ with_peripheral (devices P.Peripheral self.old) place (Some (P.Peripheral.state left)) }
        ensures stays_sound { (left : P) → StaysInService (P.Peripheral.state result.now) (P.Peripheral.state left) →
            IsRegistrySound P.Peripheral (registry_with self.old place left) }
    {
        self.slots[place].serving()
    }

    /// Returns the first device with a name, and its place.
    fn named(&self, name: &[u8]) -> Option<(usize, &Slot<P>)>
        requires { IsRegistrySound P.Peripheral self.now }
        ensures place { option_map (λ found. found.0) result
            ≡ place_of (names_of (devices P.Peripheral self.now)) name.now }
        ensures device { IfSome result (λ found.
            slice_get (devices P.Peripheral self.now) found.0 ≡ Some (device_of P.Peripheral found.1.now)) }
        ensures named { IfSome result (λ found.
            IsNamed (devices P.Peripheral self.now) name.now (device_of P.Peripheral found.1.now)) }
    {
        let place = self.find(name)?;
        Some((place, &self.slots[place]))
    }

    /// Takes out what serves the device at a place, which is vacant then; `None` if it is vacant already. It takes no
    /// memory.
    pub fn take(&mut self, place: usize) -> Option<P>
        requires sound { IsRegistrySound P.Peripheral self.old }
        requires within { place < length (devices P.Peripheral self.old) }
        ensures taken { option_map P.Peripheral.state result ≡ standing_at (devices P.Peripheral self.old) place }
        ensures vacated { devices P.Peripheral self.new ≡ with_peripheral (devices P.Peripheral self.old) place None }
        ensures sound { IsRegistrySound P.Peripheral self.new }
    {
        self.slots[place].peripheral.take()
    }

    /// Makes a peripheral serve the device at a place, which is vacant and of its kind. It takes no memory.
    pub fn put(&mut self, place: usize, peripheral: P)
        requires sound { IsRegistrySound P.Peripheral self.old }
        requires may_serve { MayServe (devices P.Peripheral self.old) place (P.Peripheral.state peripheral) }
        requires unparked { (P.Peripheral.state peripheral).is_parked ≡ false }
        ensures served { devices P.Peripheral self.new
            ≡ with_peripheral (devices P.Peripheral self.old) place (Some (P.Peripheral.state peripheral)) }
        ensures put { IsPut self.old.slots.items place peripheral self.new.slots.items }
        ensures sound { IsRegistrySound P.Peripheral self.new }
    {
        match self.slots[place].peripheral.replace(peripheral) {
            None => {}
            Some(_) => unreachable!(),
        }
    }

    /// Makes a peripheral serve the first device with a name, which is vacant and of its kind. It takes no memory.
    ///
    /// # Errors
    ///
    /// The first of these that holds:
    ///
    /// - `Unknown` if no device here has the name.
    /// - `InUse` if the device has its peripheral.
    /// - `KindDiffers` if the peripheral is of another kind than the device.
    ///
    /// A refusal returns the peripheral.
    pub fn attach(&mut self, name: &[u8], peripheral: P) -> Result<(), (AttachFault, P)>
        requires sound { IsRegistrySound P.Peripheral self.old }
        requires unparked { (P.Peripheral.state peripheral).is_parked ≡ false }
        ensures attaches { Attaches (devices P.Peripheral self.old) name.now (P.Peripheral.state peripheral) result
            (devices P.Peripheral self.new) }
        ensures puts { PutsInto self.old.slots.items name.now peripheral result self.new.slots.items }
        ensures handed_back { IfErr result (λ refusal. refusal.1 ≡ peripheral) }
        ensures sound { IsRegistrySound P.Peripheral self.new }
    {
        let Some((place, slot)) = self.named(name) else {
            return Err((AttachFault::Unknown, peripheral));
        };
        if slot.peripheral.is_some() {
            return Err((AttachFault::InUse, peripheral));
        }
        if !is_same(slot.kind, peripheral.kind()) {
            return Err((AttachFault::KindDiffers, peripheral));
        }
        self.put(place, peripheral);
        Ok(())
    }

    /// Takes what serves the first device with a name out of service, and returns it. The caller says whether a control
    /// has the device open. It takes no memory.
    ///
    /// # Errors
    ///
    /// The first of these that holds:
    ///
    /// - `Unknown` if no device here has the name.
    /// - `Vacant` if the device has no peripheral.
    /// - `InUse` if a control has it open.
    pub fn detach(&mut self, name: &[u8], is_open: bool) -> Result<P, DetachFault>
        requires sound { IsRegistrySound P.Peripheral self.old }
        ensures detaches { Detaches P.Peripheral.state (devices P.Peripheral self.old) name.now is_open result
            (devices P.Peripheral self.new) }
        ensures sound { IsRegistrySound P.Peripheral self.new }
    {
        let Some((place, slot)) = self.named(name) else {
            return Err(DetachFault::Unknown);
        };
        if slot.peripheral.is_none() {
            return Err(DetachFault::Vacant);
        }
        if is_open {
            return Err(DetachFault::InUse);
        }
        match self.take(place) {
            Some(mut peripheral) => {
                peripheral.park();
                Ok(peripheral)
            }
            None => unreachable!(),
        }
    }

    /// Ends the registry, and returns its devices in the profile's order, each once, with their peripherals. These are
    /// taken out of service, and are otherwise as they were. It takes no memory.
    pub fn into_entries(self) -> Vec<Slot<P>>
        requires { Unit {0} }
        ensures entries { devices_of P.Peripheral result.items ≡ map parked (devices P.Peripheral self) }
        ensures parked { AreParked (devices_of P.Peripheral result.items) }
    {
        let Registry {
            places: _,
            mut slots,
        } = self;
        for place in 0..slots.len() {
            slots[place].park();
        }
        slots
    }
}
