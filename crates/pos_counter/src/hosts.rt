//! What a host does with devices that it drives.
ghost use Rattle.std.specs.Prelude.{◌≡◌, None, MatchOption, false, is_some, true};
ghost use Rattle.std.specs.Option.{option_map};
ghost use Rattle.pos_drive.specs.Courses.{driven_course, handed_out_course, reported_course, settled_course};
ghost use Rattle.pos_drive.specs.declared.courses.Progress.TheVariants as progress;
ghost use Rattle.pos_profile.specs.Registries.{peripheral_at};
ghost use Rattle.pos_service.specs.Hardware.{StaysInService};
ghost use Rattle.pos_counter.specs.Counters.{IsCounterSound, Stays};
ghost use Rattle.pos_counter.specs.HostTallies.{LeavesHostAlone, drives, forgets, gives, hears};
ghost use Rattle.pos_counter.specs.Hosts.{IsFirstPending, IsNamedAt, NonePending, changed_all, changed_at, changed_named, changed_pending, course_after, course_named, has_pending, host_of, hosts_in, hosts_of, pending_of, pending_peripheral, pends_at, progress_handed_out, progress_in, progress_reported, served_named, waiting_in};
ghost use Rattle.pos_counter.specs.KeptDevices.{AreDevicesSound, devices_in, slots_in};

use crate::counter::Counter;
use crate::devices::Devices;
use pos_disk::Disk;
use pos_drive::{Awaits, Hosted, Progress};
use pos_profile::Slot;
use pos_service::Order;

/// What a host does with a device.
#[derive(Clone, Copy)]
pub(crate) enum HostAct {
    /// It drives the device from now on.
    Drive,
    /// It gets the order that waits.
    HandOut,
    /// It reports whether the order that it has is done.
    Report(bool),
}

impl<D: Disk, P: Awaits> Counter<D, P> {
    /// Returns how far the host is with the order of the first device that has one pending, or `Ready` if none has.
    pub fn progress(&self) -> Progress
        ensures { result ≡ progress_in P.Awaits.course self.now }
    {
        match self.devices.pending() {
            Some((_, peripheral)) => peripheral.progress(),
            None => Progress::Ready,
        }
    }

    /// Returns the order of the first device that has one pending, with the device's name: one that waits, or that the
    /// host has.
    pub fn waiting(&self) -> Option<(&[u8], &Order)>
        ensures { option_map (λ found. (found.0.now, found.1.now)) result ≡ waiting_in P.Awaits.course self.now }
    {
        let (name, peripheral) = self.devices.pending()?;
        let order = peripheral.waiting()?;
        Some((name, order))
    }

    /// Returns the first device that has an order pending: its name, and its peripheral.
    pub fn pending(&self) -> Option<(&[u8], &P)>
        ensures { option_map (λ found. (found.0.now, found.1.now)) result
            ≡ pending_peripheral P.Awaits.course (slots_in self.now.devices) }
    {
        self.devices.pending()
    }

    /// Returns what serves the first device of this name. It is `None` if there is no such device, or it is vacant.
    pub fn served(&self, device: &[u8]) -> Option<&P>
        requires sound { IsCounterSound P.Peripheral self.now }
        ensures { option_map (λ found. found.now) result ≡ served_named device.now (slots_in self.now.devices) }
    {
        let place = self.devices.registry.find(device)?;
        let slot = self.devices.registry.slot(place)?;
        slot.peripheral.as_ref()
    }

    /// Forgets each order that is pending, and what the host reported of it. The first one counts.
    pub fn settle(&mut self)
        requires sound { IsCounterSound P.Peripheral self.old }
        ensures hosts { hosts_in P.Awaits.course self.new
            ≡ changed_all settled_course (hosts_in P.Awaits.course self.old) }
        ensures progress { progress_in P.Awaits.course self.new ≡ progress.Ready }
        ensures tally { self.new.tally ≡ forgets (progress_in P.Awaits.course self.old) self.old.tally }
        ensures alone { LeavesHostAlone self.old.tally self.new.tally }
        ensures stays { Stays P.Peripheral self.old self.new }
        ensures sound { IsCounterSound P.Peripheral self.new }
    {
        self.tally = self.tally.forget(self.progress());
        for place in 0..self.devices.registry.count() {
            self.settle_at(place);
        }
    }

    /// Forgets the order of the device at a place.
    fn settle_at(&mut self, place: usize)
        requires sound { IsCounterSound P.Peripheral self.old }
        ensures hosts { hosts_in P.Awaits.course self.new
            ≡ changed_at settled_course place (hosts_in P.Awaits.course self.old) }
        ensures tally { self.new.tally ≡ self.old.tally }
        ensures stays { Stays P.Peripheral self.old self.new }
        ensures sound { IsCounterSound P.Peripheral self.new }
    {
        if self.devices.is_served(place) {
            self.devices.settle_at(place);
        }
    }
}

impl<D: Disk, P: Hosted> Counter<D, P> {
    /// Makes each order of the device of this name wait for the host from now on, and counts it. It returns false, and
    /// nothing changes, if no device has the name or it has no peripheral.
    pub fn drive(&mut self, device: &[u8]) -> bool
        requires sound { IsCounterSound P.Peripheral self.old }
        ensures found { result ≡ is_some (course_named device.now (hosts_in P.Awaits.course self.old)) }
        ensures unchanged { result ≡ false → self.new ≡ self.old }
        ensures hosts { hosts_in P.Awaits.course self.new
            ≡ changed_named driven_course device.now (hosts_in P.Awaits.course self.old) }
        ensures tally { self.new.tally ≡ drives result self.old.tally }
        ensures stays { Stays P.Peripheral self.old self.new }
        ensures sound { IsCounterSound P.Peripheral self.new }
    {
        match self.devices.find_hosted(device) {
            Some(place) => {
                self.act_at(place, HostAct::Drive);
                self.tally = self.tally.drive(true);
                true
            }
            None => false,
        }
    }

    /// Gives the order of the first device that has one pending to the host, and counts it. Nothing changes if it
    /// doesn't wait.
    pub fn hand_out(&mut self)
        requires sound { IsCounterSound P.Peripheral self.old }
        ensures hosts { hosts_in P.Awaits.course self.new
            ≡ changed_pending handed_out_course (hosts_in P.Awaits.course self.old) }
        ensures waiting { waiting_in P.Awaits.course self.new ≡ waiting_in P.Awaits.course self.old }
        ensures progress { progress_in P.Awaits.course self.new
            ≡ progress_handed_out (progress_in P.Awaits.course self.old) }
        ensures tally { self.new.tally ≡ gives (progress_in P.Awaits.course self.old) self.old.tally }
        ensures stays { Stays P.Peripheral self.old self.new }
        ensures sound { IsCounterSound P.Peripheral self.new }
    {
        let progress = self.progress();
        self.act_at_pending(HostAct::HandOut);
        self.tally = self.tally.give(progress);
    }

    /// Takes what the host reports of the order of the first device that has one pending: it is done, or not done.
    /// It counts. Nothing changes if the host doesn't have the order.
    pub fn report(&mut self, is_done: bool)
        requires sound { IsCounterSound P.Peripheral self.old }
        ensures hosts { hosts_in P.Awaits.course self.new
            ≡ changed_pending (reported_course is_done) (hosts_in P.Awaits.course self.old) }
        ensures progress { progress_in P.Awaits.course self.new
            ≡ progress_reported (progress_in P.Awaits.course self.old) }
        ensures tally { self.new.tally ≡ hears is_done (progress_in P.Awaits.course self.old) self.old.tally }
        ensures stays { Stays P.Peripheral self.old self.new }
        ensures sound { IsCounterSound P.Peripheral self.new }
    {
        let progress = self.progress();
        self.act_at_pending(HostAct::Report(is_done));
        self.tally = self.tally.hear(is_done, progress);
    }

    /// Does this with the first device that has an order pending, if one has.
    fn act_at_pending(&mut self, act: HostAct)
        requires sound { IsCounterSound P.Peripheral self.old }
        ensures hosts { hosts_in P.Awaits.course self.new
            ≡ changed_pending (course_after act) (hosts_in P.Awaits.course self.old) }
        ensures tally { self.new.tally ≡ self.old.tally }
        ensures stays { Stays P.Peripheral self.old self.new }
        ensures sound { IsCounterSound P.Peripheral self.new }
    {
        if let Some(place) = self.devices.find_pending() {
            self.act_at(place, act);
        }
    }

    /// Does this with the device at a place, which has a peripheral.
    fn act_at(&mut self, place: usize, act: HostAct)
        requires sound { IsCounterSound P.Peripheral self.old }
        requires served { is_some (peripheral_at (slots_in self.old.devices) place) ≡ true }
        ensures hosts { hosts_in P.Awaits.course self.new
            ≡ changed_at (course_after act) place (hosts_in P.Awaits.course self.old) }
        ensures tally { self.new.tally ≡ self.old.tally }
        ensures stays { Stays P.Peripheral self.old self.new }
        ensures sound { IsCounterSound P.Peripheral self.new }
    {
        self.devices.act_at(place, act);
    }
}

impl<P: Awaits> Devices<P> {
    /// Returns the place of the device of this name, if it has a peripheral.
    fn find_hosted(&self, name: &[u8]) -> Option<usize>
        requires { AreDevicesSound P.Peripheral self.now }
        ensures { let hosts = hosts_of P.Awaits.course (slots_in self.now) in
            MatchOption result (course_named name.now hosts ≡ None) (λ place. IsNamedAt name.now hosts place
            × (is_some (course_named name.now hosts) ≡ true)
            × (is_some (peripheral_at (slots_in self.now) place) ≡ true)) }
    {
        let place = self.registry.find(name)?;
        if self.is_served(place) {
            Some(place)
        } else {
            None
        }
    }

    /// Returns whether the device at a place has a peripheral.
    fn is_served(&self, place: usize) -> bool
        ensures { result ≡ is_some (peripheral_at (slots_in self.now) place) }
    {
        match self.registry.slot(place) {
            Some(slot) => slot.peripheral.is_some(),
            None => false,
        }
    }

    /// Returns the place of the first device that has an order pending.
    fn find_pending(&self) -> Option<usize>
        ensures { let hosts = hosts_of P.Awaits.course (slots_in self.now) in
            MatchOption result (NonePending hosts) (λ place. IsFirstPending hosts place) }
    {
        for place in 0..self.registry.count() {
            if self.is_pending(place) {
                return Some(place);
            }
        }
        None
    }

    /// Returns whether an order of the device at a place is pending.
    fn is_pending(&self, place: usize) -> bool
        ensures { result ≡ pends_at (hosts_of P.Awaits.course (slots_in self.now)) place }
    {
        match self.registry.slot(place) {
            Some(slot) => is_pending(slot),
            None => false,
        }
    }

    /// Returns the first device that has an order pending: its name, and its peripheral.
    fn pending(&self) -> Option<(&[u8], &P)>
        ensures hosts { option_map (λ found. (found.0.now, P.Awaits.course found.1.now)) result
            ≡ pending_of (hosts_of P.Awaits.course (slots_in self.now)) }
        ensures peripheral { option_map (λ found. (found.0.now, found.1.now)) result
            ≡ pending_peripheral P.Awaits.course (slots_in self.now) }
    {
        let place = self.find_pending()?;
        let slot = self.registry.slot(place)?;
        let peripheral = slot.peripheral.as_ref()?;
        Some((slot.name.as_slice(), peripheral))
    }

    /// Forgets the order of the device at a place, which has a peripheral.
    fn settle_at(&mut self, place: usize)
        requires sound { AreDevicesSound P.Peripheral self.old }
        requires served { is_some (peripheral_at (slots_in self.old) place) ≡ true }
        ensures hosts { hosts_of P.Awaits.course (slots_in self.new)
            ≡ changed_at settled_course place (hosts_of P.Awaits.course (slots_in self.old)) }
        ensures same { devices_in P.Peripheral self.new ≡ devices_in P.Peripheral self.old }
        ensures sound { AreDevicesSound P.Peripheral self.new }
    {
        let peripheral = self.registry.serving(place);
        settle_with(peripheral);
    }
}

impl<P: Hosted> Devices<P> {
    /// Does this with the device at a place, which has a peripheral.
    fn act_at(&mut self, place: usize, act: HostAct)
        requires sound { AreDevicesSound P.Peripheral self.old }
        requires served { is_some (peripheral_at (slots_in self.old) place) ≡ true }
        ensures hosts { hosts_of P.Awaits.course (slots_in self.new)
            ≡ changed_at (course_after act) place (hosts_of P.Awaits.course (slots_in self.old)) }
        ensures same { devices_in P.Peripheral self.new ≡ devices_in P.Peripheral self.old }
        ensures sound { AreDevicesSound P.Peripheral self.new }
    {
        let peripheral = self.registry.serving(place);
        act_with(peripheral, act);
    }
}

/// Returns whether an order of a device is pending.
fn is_pending<P: Awaits>(slot: &Slot<P>) -> bool
    ensures { result ≡ has_pending (host_of P.Awaits.course slot.now) }
{
    match &slot.peripheral {
        Some(peripheral) => !matches!(peripheral.progress(), Progress::Free | Progress::Ready),
        None => false,
    }
}

/// Does this with a peripheral.
fn act_with<P: Hosted>(peripheral: &mut P, act: HostAct)
    requires unparked { (P.Peripheral.state peripheral.old).is_parked ≡ false }
    ensures state { P.Peripheral.state peripheral.new ≡ P.Peripheral.state peripheral.old }
    ensures course { P.Awaits.course peripheral.new ≡ course_after act (P.Awaits.course peripheral.old) }
    ensures in_service { let state = P.Peripheral.state in
        StaysInService (state peripheral.old) (state peripheral.new) }
{
    match act {
        HostAct::Drive => peripheral.drive(),
        HostAct::HandOut => peripheral.hand_out(),
        HostAct::Report(is_done) => peripheral.report(is_done),
    }
}

/// Forgets the order of a peripheral.
fn settle_with<P: Awaits>(peripheral: &mut P)
    requires unparked { (P.Peripheral.state peripheral.old).is_parked ≡ false }
    ensures state { P.Peripheral.state peripheral.new ≡ P.Peripheral.state peripheral.old }
    ensures course { P.Awaits.course peripheral.new ≡ settled_course (P.Awaits.course peripheral.old) }
    ensures in_service { let state = P.Peripheral.state in
        StaysInService (state peripheral.old) (state peripheral.new) }
{
    peripheral.settle();
}
