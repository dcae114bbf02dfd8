//! The events that don't wait, in their places among those that wait.
ghost use Rattle.std.specs.Prelude.{◌≡◌, ◌+◌, ◌<◌, ◌≤◌, ◌^◌, [], ◌∷◌, ◌++◌};
ghost use Rattle.std.specs.VecDeque.{deque_len, deque_capacity};
ghost use Rattle.pos_events.specs.declared.immediate.PlacedEvent.{PlacedEvent};
ghost use Rattle.pos_events.specs.QueueParts.{all_before, before_first, one_less, first_immediate, without_first, without_errors, immediate_events};

use crate::immediate_event::ImmediateEvent;
use std::alloc::Global;
use std::collections::VecDeque;

/// An event that doesn't wait, in its place among those that wait.
#[derive(Clone, Copy, PartialEq, Eq)]
pub(crate) struct PlacedEvent {
    /// How many waiting events are directly before it.
    pub(crate) before: usize,
    /// The event.
    pub(crate) event: ImmediateEvent,
}

/// The events that don't wait, oldest first, each in its place.
#[derive(Drop)]
pub(crate) struct ImmediateEvents {
    pub(crate) events: VecDeque<PlacedEvent>,
    /// How many waiting events are after the last of them.
    pub(crate) behind: usize,
}

impl ImmediateEvents {
    /// Returns no events, with nothing that waits.
    pub(crate) fn new(alloc: Global) -> Self
        ensures events { result.events.items ≡ [] }
        ensures behind { result.behind ≡ 0 }
    {
        ImmediateEvents {
            events: VecDeque::new(alloc),
            behind: 0,
        }
    }

    /// Puts an event after all.
    pub(crate) fn push(&mut self, event: ImmediateEvent)
        requires { deque_len self.old.events < deque_capacity self.old.events }
        ensures events { let placed : PlacedEvent = record { before = self.old.behind; event = event } in
            self.new.events.items ≡ self.old.events.items ++ placed ∷ [] }
        ensures behind { self.new.behind ≡ 0 }
        ensures len { deque_len self.new.events ≡ deque_len self.old.events + 1 }
        ensures capacity { deque_capacity self.new.events ≡ deque_capacity self.old.events }
    {
        self.events.push_back_reserved(PlacedEvent {
            before: self.behind,
            event,
        });
        self.behind = 0;
    }

    /// Takes the first event, if there is one.
    pub(crate) fn pop(&mut self) -> Option<ImmediateEvent>
        requires { all_before self.old.events.items + self.old.behind < 2 ^ 64 }
        ensures first { result ≡ first_immediate self.old.events.items }
        ensures rest { self.new.events.items ≡ without_first self.old.events.items }
        ensures counted { let count = all_before self.old.events.items + self.old.behind in
            all_before self.new.events.items + self.new.behind ≡ count }
        ensures capacity { deque_capacity self.new.events ≡ deque_capacity self.old.events }
    {
        let placed = self.events.pop_front()?;
        match self.events.pop_front() {
            Some(next) => self.events.push_front_reserved(PlacedEvent {
                before: placed.before + next.before,
                event: next.event,
            }),
            None => self.behind += placed.before,
        }
        Some(placed.event)
    }

    /// Returns how many waiting events are before the first, or in all if there is none.
    pub(crate) fn before_first(&self) -> usize
        ensures { result ≡ before_first self.now.events.items self.now.behind }
    {
        match self.events.front() {
            Some(placed) => placed.before,
            None => self.behind,
        }
    }

    /// Notes that the first waiting event is gone.
    pub(crate) fn one_less(&mut self)
        requires { 0 < before_first self.old.events.items self.old.behind }
        ensures rest { self.new.events.items ≡ one_less self.old.events.items }
        ensures counted { let count = all_before self.old.events.items + self.old.behind in
            all_before self.new.events.items + self.new.behind + 1 ≡ count }
        ensures len { deque_len self.new.events ≡ deque_len self.old.events }
        ensures capacity { deque_capacity self.new.events ≡ deque_capacity self.old.events }
    {
        match self.events.pop_front() {
            Some(placed) => self.events.push_front_reserved(PlacedEvent {
                before: placed.before - 1,
                event: placed.event,
            }),
            None => self.behind -= 1,
        }
    }

    /// Notes that nothing waits any more.
    pub(crate) fn forget_waiting(&mut self)
        ensures events { immediate_events self.new.events.items ≡ immediate_events self.old.events.items }
        ensures counted { all_before self.new.events.items + self.new.behind ≡ 0 }
        ensures len { deque_len self.new.events ≡ deque_len self.old.events }
        ensures capacity { deque_capacity self.new.events ≡ deque_capacity self.old.events }
    {
        for i in 0..self.events.len() {
            self.events[i].before = 0;
        }
        self.behind = 0;
    }

    /// Deletes the errors of output. What was before one of them is before the next event that stays.
    pub(crate) fn remove_errors(&mut self)
        requires { all_before self.old.events.items + self.old.behind < 2 ^ 64 }
        ensures events { self.new.events.items ≡ without_errors 0 self.old.events.items }
        ensures counted { let count = all_before self.old.events.items + self.old.behind in
            all_before self.new.events.items + self.new.behind ≡ count }
        ensures len { deque_len self.new.events ≤ deque_len self.old.events }
        ensures capacity { deque_capacity self.new.events ≡ deque_capacity self.old.events }
    {
        let mut before = 0;
        for _ in 0..self.events.len() {
            if let Some(placed) = self.events.pop_front() {
                before += placed.before;
                if !placed.event.is_error() {
                    self.events.push_back_reserved(PlacedEvent {
                        before,
                        event: placed.event,
                    });
                    before = 0;
                }
            }
        }
        self.behind += before;
    }
}
