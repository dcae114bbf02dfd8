//! The events of one control: how they come into its queue, leave it and are deleted.
ghost use Rattle.std.specs.Prelude.{◌≡◌, ◌≤◌, ◌<◌, OnOk, OnErr, ◌+◌, true, false, is_some, option_map};
ghost use Rattle.pos_service.specs.Events.{no_events, data_count, Status, Error, Complete, enqueued, scanned, input_failed, deliverable, delivered, split, left_by, after_reply, input_error, clears_input, input_cleared, output_cleared};
ghost use Rattle.pos_service.specs.declared.event.Locus.TheVariants as locus;
ghost use Rattle.pos_events.specs.QueueParts.{event_of_immediate};
ghost use Rattle.pos_events.specs.Queue.{delivery_of};
ghost use Rattle.pos_events.specs.Waiting.{first_waiting};

use crate::immediate::ImmediateEvents;
use crate::immediate_event::ImmediateEvent;
use pos_service::{Code, ErrorReply, Event, Locus, NoMemory, Scan};
use std::alloc::Global;
use std::collections::VecDeque;
use std::marker::Model;

/// The events of a control, oldest first, and whether it is in the input error state (common chapter). Contracts see
/// the list, the state, and how many more events there is room for.
#[derive(Drop)]
pub struct EventQueue {
    /// Of the DataEvents.
    scans: VecDeque<Scan>,
    /// The events that don't wait, in their places.
    immediate: ImmediateEvents,
    /// Whether EL_INPUT_DATA is held: it is directly before the first DataEvent, and isn't counted.
    input_data: bool,
    /// Whether the control is in the input error state, and so EL_INPUT is held: it is the last of the waiting events.
    in_error: bool,
}

impl Model for EventQueue {
    ghost use Rattle.std.specs.Prelude.{◌-◌, min};
    ghost use Rattle.std.specs.VecDeque.{deque_len, deque_capacity};
    ghost use Rattle.pos_events.specs.Queue.{Queue};

    ghost Value = { Queue };

    ghost use Rattle.pos_events.specs.QueueParts.{Fits, list_of};

    ghost view = { λ a. record {
      list = list_of a.input_data a.in_error a.scans.items a.immediate.events.items;
      spare = min
          (deque_capacity a.scans - deque_len a.scans)
          (deque_capacity a.immediate.events - deque_len a.immediate.events);
    } };

    ghost invariant = { λ a. Fits a.input_data a.in_error a.scans.items a.immediate.events.items a.immediate.behind };
}

impl EventQueue {
    /// Returns a queue without events that is in no error state.
    pub fn new(alloc: Global) -> Self
        ensures { result.list ≡ no_events }
    {
        EventQueue {
            scans: VecDeque::new(alloc),
            immediate: ImmediateEvents::new(alloc),
            input_data: false,
            in_error: false,
        }
    }

    /// Makes room for so many more events, if there is less.
    ///
    /// # Errors
    ///
    /// [`NoMemory`] if memory ran out. Then nothing but that room has changed.
    pub fn room(&mut self, count: usize) -> Result<(), NoMemory>
        ensures room { OnOk result (count ≤ self.new.spare) }
        ensures full { OnErr result (self.old.spare < count) }
        ensures kept { self.old.spare ≤ self.new.spare }
        ensures same { self.new.list ≡ self.old.list }
    {
        self.scans.reserve(count)?;
        self.immediate.events.reserve(count)?;
        Ok(())
    }

    /// Returns how many DataEvents are enqueued (common chapter, DataCount).
    #[tactic(auto, using(crate::proofs::DataCountLemmas::count_events))]
    pub fn data_count(&self) -> usize
        ensures { result ≡ data_count self.now.list }
    {
        self.scans.len()
    }

    /// Returns whether the control is in the input error state (common chapter, error handling).
    pub fn in_error(&self) -> bool
        ensures { result ≡ self.now.list.in_error }
    {
        self.in_error
    }
}

impl EventQueue {
    /// Enqueues a StatusUpdateEvent: a device has this new status (common chapter).
    pub fn status(&mut self, code: u32)
        requires { 1 ≤ self.old.spare }
        ensures enqueued { self.new.list ≡ enqueued (Status code) self.old.list }
        ensures room { self.old.spare ≤ self.new.spare + 1 }
    {
        self.enqueue(ImmediateEvent::Status(code));
    }

    /// Enqueues a DataEvent for a scan that has come, but not in the input error state (common chapter).
    pub fn data(&mut self, scan: Scan)
        requires { 1 ≤ self.old.spare }
        ensures enqueued { self.new.list ≡ scanned scan self.old.list }
        ensures room { self.old.spare ≤ self.new.spare + 1 }
    {
        if !self.in_error {
            self.scans.push_back_reserved(scan);
            self.immediate.behind += 1;
        }
    }

    /// Puts the control into the input error state: a scan has failed (common chapter).
    ///
    /// The ErrorEvents are enqueued: EL_INPUT_DATA directly before the first DataEvent, if there is one, and EL_INPUT
    /// at the end. In that state already, nothing changes.
    pub fn input_error(&mut self)
        requires { 2 ≤ self.old.spare }
        ensures enqueued { self.new.list ≡ input_failed self.old.list }
        ensures room { self.old.spare ≤ self.new.spare + 2 }
    {
        if self.in_error {
            return;
        }
        self.immediate.behind += 1;
        self.in_error = true;
        self.input_data = !self.scans.is_empty();
    }

    /// Enqueues an ErrorEvent with EL_OUTPUT, with code and extended code: an output request has failed (common
    /// chapter).
    pub fn output_error(&mut self, code: Code, extended: u32)
        requires { 1 ≤ self.old.spare }
        ensures enqueued { self.new.list ≡ enqueued (Error code extended locus.Output) self.old.list }
        ensures room { self.old.spare ≤ self.new.spare + 1 }
    {
        self.enqueue(ImmediateEvent::OutputError(code, extended));
    }

    /// Enqueues an OutputCompleteEvent: the output request with this OutputID is done (common chapter).
    pub fn complete(&mut self, id: u64)
        requires { 1 ≤ self.old.spare }
        ensures enqueued { self.new.list ≡ enqueued (Complete id) self.old.list }
        ensures room { self.old.spare ≤ self.new.spare + 1 }
    {
        self.enqueue(ImmediateEvent::Complete(id));
    }

    /// Puts an event that doesn't wait at the end.
    #[tactic(auto, using(crate::proofs::EnqueueLemmas::events_push, crate::proofs::EnqueueLemmas::fits_push))]
    fn enqueue(&mut self, event: ImmediateEvent)
        requires { 1 ≤ self.old.spare }
        ensures enqueued { self.new.list ≡ enqueued (event_of_immediate event) self.old.list }
        ensures room { self.old.spare ≤ self.new.spare + 1 }
    {
        self.immediate.push(event);
    }
}

impl EventQueue {
    /// Takes the event that may be delivered now, and returns it, or `None` if there is none (common chapter, event
    /// queue).
    ///
    /// - While events are frozen (FreezeEvents), there is none.
    /// - While data events are enabled (DataEventEnabled), it is the first event.
    /// - Otherwise it is the first that doesn't wait: DataEvents and ErrorEvents of input wait.
    ///
    /// The reply is what the application answers to an ErrorEvent of input. Any reply at EL_INPUT, and ER_CLEAR at
    /// EL_INPUT_DATA, deletes DataEvents and ErrorEvents of input and ends the input error state. What a reply does to
    /// output is left to the caller.
    #[tactic(auto, using(crate::proofs::DeliveryLemmas::delivered_told))]
    pub fn deliver(
        &mut self,
        data_enabled: bool,
        frozen: bool,
        reply: ErrorReply,
    ) -> Option<Delivery>
        ensures event { result ≡ option_map delivery_of (deliverable data_enabled frozen self.old.list) }
        ensures rest { self.new.list ≡ delivered data_enabled frozen reply self.old.list }
        ensures room { self.old.spare ≤ self.new.spare }
    {
        if frozen {
            return None;
        }
        if data_enabled {
            return self.take_first(reply);
        }
        self.take_told()
    }

    /// Returns whether `deliver` would return an event now. It takes no memory.
    #[tactic(auto, using(crate::proofs::DeliverableLemmas::there))]
    pub fn has_deliverable(&self, data_enabled: bool, frozen: bool) -> bool
        ensures { result ≡ is_some (deliverable data_enabled frozen self.now.list) }
    {
        if !self.immediate.events.is_empty() {
            return !frozen;
        }
        !frozen && data_enabled && (self.in_error || !self.scans.is_empty())
    }

    /// Takes the first event that doesn't wait.
    #[tactic(auto, using(crate::proofs::DeliveryLemmas::telling))]
    fn take_told(&mut self) -> Option<Delivery>
        ensures event { result ≡ option_map delivery_of (split false self.old.list.events).deliverable }
        ensures rest { self.new.list ≡ record self.old.list { events = left_by false self.old.list.events } }
        ensures room { self.old.spare ≤ self.new.spare }
    {
        let event = self.immediate.pop()?;
        Some(event.delivery())
    }

    /// Takes the first event, and does to the rest what the reply asks.
    #[tactic(auto, using(crate::proofs::DeliveryLemmas::first_is_input_data))]
    fn take_first(&mut self, reply: ErrorReply) -> Option<Delivery>
        ensures event { result ≡ option_map delivery_of (split true self.old.list.events).deliverable }
        ensures rest { let list = record self.old.list { events = left_by true self.old.list.events } in
            self.new.list ≡ after_reply (split true self.old.list.events).deliverable reply list }
        ensures room { self.old.spare ≤ self.new.spare }
    {
        if self.immediate.before_first() == 0 {
            return self.take_told();
        }
        match first_waiting(self.input_data, self.scans.is_empty()) {
            Waiting::InputData => {
                if clears_input(Locus::InputData, reply) {
                    self.clear_input();
                    return Some(input_error(Locus::InputData));
                }
                self.input_data = false;
                return Some(input_error(Locus::InputData));
            }
            Waiting::Input => {
                self.clear_input();
                return Some(input_error(Locus::Input));
            }
            Waiting::Data => {}
        }
        self.immediate.one_less();
        let scan = self.scans.pop_front();
        Some(Delivery {
            event: Event::Data,
            scan,
        })
    }
}

/// A kind of event that waits for DataEventEnabled.
#[derive(Clone, Copy, PartialEq, Eq)]
pub(crate) enum Waiting {
    /// The ErrorEvent with EL_INPUT_DATA.
    InputData,
    /// A DataEvent.
    Data,
    /// The ErrorEvent with EL_INPUT.
    Input,
}

/// Returns the first of the waiting events, if there is one: EL_INPUT_DATA is before the scans, EL_INPUT after them.
fn first_waiting(input_data: bool, no_scans: bool) -> Waiting
    ensures { result ≡ first_waiting input_data no_scans }
{
    if input_data {
        return Waiting::InputData;
    }
    if no_scans {
        return Waiting::Input;
    }
    Waiting::Data
}

/// Returns an ErrorEvent of an input error: E_FAILURE.
fn input_error(locus: Locus) -> Delivery
    ensures { result ≡ delivery_of (input_error locus) }
{
    without_scan(Event::Error(Code::Failure, 0, locus))
}

/// Returns whether this reply to an ErrorEvent deletes the input that is held: always at EL_INPUT, ER_CLEAR at
/// EL_INPUT_DATA.
fn clears_input(locus: Locus, reply: ErrorReply) -> bool
    ensures { result ≡ clears_input locus reply }
{
    match (locus, reply) {
        (Locus::Input, _) => true,
        (Locus::InputData, ErrorReply::Clear) => true,
        _ => false,
    }
}

impl EventQueue {
    /// Deletes the DataEvents and the ErrorEvents of input, and ends the input error state (common chapter,
    /// clearInput).
    #[tactic(auto, using(crate::proofs::ClearLemmas::input_deleted))]
    pub fn clear_input(&mut self)
        ensures cleared { self.new.list ≡ input_cleared self.old.list }
        ensures room { self.old.spare ≤ self.new.spare }
    {
        self.scans.clear();
        self.in_error = false;
        self.input_data = false;
        self.immediate.forget_waiting();
    }

    /// Deletes the ErrorEvents of output (common chapter, clearOutput). OutputCompleteEvents stay.
    #[tactic(auto, using(crate::proofs::ClearLemmas::errors_deleted))]
    pub fn clear_output(&mut self)
        ensures cleared { self.new.list ≡ output_cleared self.old.list }
        ensures room { self.old.spare ≤ self.new.spare }
    {
        self.immediate.remove_errors();
    }

    /// Deletes all events, and ends the input error state.
    pub fn clear(&mut self)
        ensures cleared { self.new.list ≡ no_events }
        ensures room { self.old.spare ≤ self.new.spare }
    {
        self.scans.clear();
        self.immediate.events.clear();
        self.immediate.behind = 0;
        self.input_data = false;
        self.in_error = false;
    }
}

/// An event that leaves a queue for its application.
#[derive(Drop)]
pub struct Delivery {
    /// The event.
    pub event: Event,
    /// What was scanned, if it is a DataEvent.
    pub scan: Option<Scan>,
}

/// The delivery of an event that isn't a DataEvent.
pub(crate) fn without_scan(event: Event) -> Delivery
    ensures { result ≡ record { event = event; scan = None } }
{
    Delivery { event, scan: None }
}
