//! The events of a control: what enqueues them, deletes them and delivers them.
ghost use Rattle.std.specs.Prelude.{◌≡◌, ◌<◌, ◌≤◌, ◌+◌, OnOk, OnErr, is_some};
ghost use Rattle.pos_service.specs.Controls.{listens, if_listening, heard, read, failed, is_held_back, deliverable, delivered, without_input, without_scan};
ghost use Rattle.pos_service.specs.Statuses.{changed_status, heard_signs};
ghost use Rattle.pos_common.specs.KeptControls.{HasRoom, sign_events, scan_events, fault_events};

use super::Control;
use crate::status::{cover_status, drawer_status, paper_status, power_status};
use pos_service::{ErrorReply, Event, NoMemory, Scan, Signs};

/// The most StatusUpdateEvents that one change of a device's signs has: drawer, cover, paper, power.
pub(crate) const SIGN_EVENTS: usize = 4;

/// The most events that an input has: those of a change of signs. A scan has one, and a failed scan two (ErrorEvents
/// with EL_INPUT_DATA and EL_INPUT).
pub(crate) const INPUT_EVENTS: usize = 4;

/// The most events that the work on a request of output has: those of a change of signs, and one of its success or
/// failure.
pub const WORK_EVENTS: usize = 5;

impl Control {
    /// Returns whether it has the device at this place open and enabled.
    pub fn listens(&self, place: usize) -> bool
        ensures { result ≡ listens place self.now.control }
    {
        self.is_enabled && self.place() == Some(place)
    }

    /// Makes room for this many events, if it has the device at this place open and enabled and has less room.
    ///
    /// # Errors
    ///
    /// [`NoMemory`] if memory ran out. Then nothing but that room has changed.
    pub fn room_for(&mut self, place: usize, count: usize) -> Result<(), NoMemory>
        ensures room { OnOk result (HasRoom place count self.new) }
        ensures full { OnErr result (¬ (HasRoom place count self.old)) }
        ensures same { self.new.control ≡ self.old.control }
    {
        if self.listens(place) {
            self.room(count)?;
        }
        Ok(())
    }

    /// Makes room for this many events, if it has less.
    ///
    /// # Errors
    ///
    /// [`NoMemory`] if memory ran out. Then nothing but that room has changed.
    pub(crate) fn room(&mut self, count: usize) -> Result<(), NoMemory>
        ensures room { OnOk result (count ≤ self.new.spare) }
        ensures full { OnErr result (self.old.spare < count) }
        ensures same { self.new.control ≡ self.old.control }
    {
        self.events.room(count)
    }

    /// Enqueues a StatusUpdateEvent for each sign that has changed, if it has the device at this place open and
    /// enabled. The order is drawer, cover, paper, power. That of power comes only if the control is notified of it
    /// (common chapter, StatusUpdateEvent and device power reporting).
    pub fn hear(&mut self, place: usize, old: Signs, new: Signs)
        requires { HasRoom place sign_events self.old }
        ensures heard { self.new.control ≡ if_listening place (heard_signs old new) self.old.control }
        ensures room { self.old.spare ≤ self.new.spare + sign_events }
    {
        if self.listens(place) {
            self.enqueue_status(
                drawer_status(old.drawer_open),
                drawer_status(new.drawer_open),
            );
            self.enqueue_status(cover_status(old.cover_open), cover_status(new.cover_open));
            self.enqueue_status(paper_status(old.paper), paper_status(new.paper));
            if self.is_notified() {
                self.enqueue_status(power_status(old.powered), power_status(new.powered));
            }
        }
    }

    /// Enqueues a status, if it has changed.
    fn enqueue_status(&mut self, old: u32, new: u32)
        requires { 1 ≤ self.old.spare }
        ensures told { self.new.control ≡ heard (changed_status old new) self.old.control }
        ensures room { self.old.spare ≤ self.new.spare + 1 }
    {
        if old != new {
            self.events.status(new);
        }
    }

    /// Enqueues the DataEvent of a scan at the device, which it has open and enabled. With AutoDisable the control is
    /// then disabled. In the input error state the scan is ignored (common chapter, data events).
    pub(crate) fn read(&mut self, scan: Scan)
        requires { scan_events ≤ self.old.spare }
        ensures { self.new.control ≡ read scan self.old.control }
    {
        if self.events.in_error() {
            return;
        }
        if self.settings.auto_disable {
            self.is_enabled = false;
        }
        self.events.data(scan);
    }

    /// Puts it into the input error state, with its ErrorEvents, if it has the device at this place open and enabled.
    /// In that state already, nothing changes (common chapter, error handling).
    pub fn fail_input(&mut self, place: usize)
        requires { HasRoom place fault_events self.old }
        ensures { self.new.control ≡ if_listening place failed self.old.control }
    {
        if self.listens(place) {
            self.events.input_error();
        }
    }

    /// `clearInput`: deletes the DataEvents and the ErrorEvents of input, and ends the input error state (common
    /// chapter).
    pub(crate) fn clear_input(&mut self)
        ensures { self.new.control ≡ without_input self.old.control }
    {
        self.events.clear_input();
    }

    /// `clearInputProperties`: gives ScanData, ScanDataLabel and ScanDataType their defaults again (common chapter,
    /// chapter Scanner).
    pub(crate) fn clear_input_properties(&mut self)
        ensures { self.new.control ≡ without_scan self.old.control }
    {
        self.shown.clear();
    }

    /// Returns whether no event may be delivered, because it is closed or its events are frozen.
    fn is_held_back(&self) -> bool
        ensures { result ≡ is_held_back self.now.control }
    {
        self.device.is_none() || self.settings.freeze_events
    }

    /// Returns whether `deliver` would return an event now. It takes no memory.
    pub fn has_deliverable(&self) -> bool
        ensures { result ≡ is_some (deliverable self.now.control) }
    {
        self.events
            .has_deliverable(self.settings.data_event_enabled, self.is_held_back())
    }

    /// Takes the event that may be delivered now, and returns it (common chapter, event queue). The reply is the
    /// application's to an ErrorEvent.
    ///
    /// There is none while the control is closed or its events are frozen. While data events are enabled it is the
    /// first, otherwise the first that is neither a DataEvent nor an error of input. With a DataEvent its scan is
    /// shown, as DecodeData says now, and data events are disabled.
    pub fn deliver(&mut self, reply: ErrorReply) -> Option<Event>
        ensures event { result ≡ deliverable self.old.control }
        ensures rest { self.new.control ≡ delivered reply self.old.control }
    {
        let data_enabled = self.settings.data_event_enabled;
        let is_held_back = self.is_held_back();
        let delivery = self.events.deliver(data_enabled, is_held_back, reply)?;
        if delivery.scan.is_some() {
            self.settings.data_event_enabled = false;
        }
        self.shown.take(delivery.scan, self.settings.decode_data);
        self.writer.take_reply(delivery.event, reply);
        Some(delivery.event)
    }
}
