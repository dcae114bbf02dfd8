//! A control: an application's hold of a device.
ghost use Rattle.std.specs.Prelude.{◌≡◌};
ghost use Rattle.pos_service.specs.Controls.{is_notified, new_control, open_place};
ghost use Rattle.pos_service.specs.Actions.{changed};

mod calls;
mod events;
mod output;
mod properties;

use crate::shown::ShownScan;
use crate::writer::Writer;
pub use events::WORK_EVENTS;
pub(crate) use events::{INPUT_EVENTS, SIGN_EVENTS};
use pos_events::EventQueue;
use pos_service::display_text::Cursor;
use pos_service::{Category, ControlUpdate, OpenDevice, Settings};
use std::alloc::Global;
use std::marker::Model;

/// A control: an application's hold of a device (common chapter). Contracts see the machine's control, and how many
/// events it has room for.
#[derive(Drop)]
pub struct Control {
    category: Category,
    device: Option<OpenDevice>,
    is_enabled: bool,
    settings: Settings,
    shown: ShownScan,
    cursor: Cursor,
    writer: Writer,
    events: EventQueue,
}

impl Model for Control {
    ghost use Rattle.pos_common.specs.KeptControls.{KeptControl};

    ghost Value = { KeptControl };

    ghost view = { λ a. record {
      control = record {
        category = a.category;
        device = a.device;
        enabled = a.is_enabled;
        settings = a.settings;
        shown = a.shown;
        cursor = a.cursor;
        writer = a.writer;
        list = a.events.list;
      };
      spare = a.events.spare;
    } };
}

impl Control {
    /// Returns a closed control of a category.
    pub fn new(alloc: Global, category: Category) -> Self
        ensures { result.control ≡ new_control category }
    {
        Control {
            category,
            device: None,
            is_enabled: false,
            settings: Settings::new(),
            shown: ShownScan::new(alloc),
            cursor: Cursor::new(),
            writer: Writer::new(alloc),
            events: EventQueue::new(alloc),
        }
    }

    /// Returns its category, which never changes.
    pub fn category(&self) -> Category
        ensures { result ≡ self.now.control.category }
    {
        self.category
    }

    /// Returns whether the device is in operation for it (common chapter, DeviceEnabled).
    pub fn is_enabled(&self) -> bool
        ensures { result ≡ self.now.control.enabled }
    {
        self.is_enabled
    }

    /// Returns whether it is notified of its device's power: PowerNotify is PN_ENABLED, and its category reports power
    /// (common chapter, device power reporting).
    pub(crate) fn is_notified(&self) -> bool
        ensures { result ≡ is_notified self.now.control }
    {
        self.category.reports_power() && self.settings.power_notify
    }

    /// Returns the device that it has open, if any.
    pub fn device(&self) -> Option<OpenDevice>
        ensures { result ≡ self.now.control.device }
    {
        self.device
    }

    /// Returns the place of the device that it has open. It is `None` if the control is closed or on the Hard Totals.
    pub fn place(&self) -> Option<usize>
        ensures { result ≡ open_place self.now.control.device }
    {
        match self.device {
            Some(OpenDevice::At(place)) => Some(place),
            _ => None,
        }
    }

    /// Returns CursorRow, CursorColumn and CursorUpdate (chapter Line Display).
    pub fn cursor(&self) -> Cursor
        ensures { result ≡ self.now.control.cursor }
    {
        self.cursor
    }

    /// Applies what a call changes of its control, once the call is done.
    pub(crate) fn change(&mut self, change: ControlUpdate)
        ensures { self.new.control ≡ changed change self.old.control }
    {
        match change {
            ControlUpdate::Nothing => {}
            ControlUpdate::Cursor(place) => self.cursor.place = place,
            ControlUpdate::Input => self.clear_input(),
            ControlUpdate::InputProperties => self.clear_input_properties(),
            ControlUpdate::Output => self.clear_output(),
        }
    }
}
