//! The events that don't wait for DataEventEnabled.
ghost use Rattle.std.specs.Prelude.{◌≡◌};
ghost use Rattle.pos_events.specs.Queue.{delivery_of};
ghost use Rattle.pos_events.specs.QueueParts.{is_error, event_of_immediate};

use crate::queue::{Delivery, without_scan};
use pos_service::{Code, Event, Locus};

/// An event that doesn't wait for DataEventEnabled.
#[derive(Clone, Copy, PartialEq, Eq)]
pub(crate) enum ImmediateEvent {
    /// StatusUpdateEvent, with the status.
    Status(u32),
    /// ErrorEvent with EL_OUTPUT, with code and extended code.
    OutputError(Code, u32),
    /// OutputCompleteEvent, with the OutputID.
    Complete(u64),
}

impl ImmediateEvent {
    /// Returns whether it is an error of output.
    pub(crate) fn is_error(self) -> bool
        ensures { result ≡ is_error self }
    {
        match self {
            ImmediateEvent::Status(_) => false,
            ImmediateEvent::OutputError(_, _) => true,
            ImmediateEvent::Complete(_) => false,
        }
    }

    /// Returns the event as its application gets it.
    pub(crate) fn delivery(self) -> Delivery
        ensures { result ≡ delivery_of (event_of_immediate self) }
    {
        match self {
            ImmediateEvent::Status(code) => without_scan(Event::StatusUpdate(code)),
            ImmediateEvent::OutputError(code, extended) => {
                without_scan(Event::Error(code, extended, Locus::Output))
            }
            ImmediateEvent::Complete(id) => without_scan(Event::OutputComplete(id)),
        }
    }
}
