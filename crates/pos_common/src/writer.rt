//! The requests of output that a control has, with the OutputID that it gave last.
ghost use Rattle.std.specs.Prelude.{◌≡◌, ◌<◌, Some, OnOk, OnErr, IfSome, IsSome, option_map};
ghost use Rattle.pos_output.specs.declared.queue.PutFault.TheVariants as put_fault;
ghost use Rattle.pos_service.specs.Controls.{default_writer, queued_by, with_output};
ghost use Rattle.pos_service.specs.Output.{is_outstanding, last_output_id, output_after, output_deleted};
ghost use Rattle.pos_service.specs.Output.{request_done, request_failed, request_to_do};
ghost use Rattle.pos_service.specs.Peripherals.{PrintersTake};

use pos_output::{OutputQueue, PutFault};
use pos_service::{ErrorReply, Event, Locus, Order};
use std::alloc::Global;
use std::marker::Model;

/// The requests of output that a control has still to do, and the OutputID that it gave last (common chapter, chapter
/// POS Printer). Every printer takes each of the requests.
#[derive(Drop)]
pub(crate) struct Writer {
    output_id: u64,
    output: OutputQueue,
}

impl Model for Writer {
    ghost use Rattle.std.specs.Prelude.{All};
    ghost use Rattle.pos_service.specs.Controls.{Writer as Kept};
    ghost use Rattle.pos_service.specs.Peripherals.{PrintersTake};

    ghost Value = { Kept };

    ghost view = { λ a. record { output_id = a.output_id; output = a.output } };

    ghost invariant = { λ a. All (λ request. PrintersTake request.1) a.output.requests };
}

impl Writer {
    /// Returns a writer without requests. OutputIDs begin with 1.
    pub(crate) fn new(alloc: Global) -> Self
        ensures { result ≡ default_writer 1 }
    {
        Writer {
            output_id: 0,
            output: OutputQueue::starting(alloc, 1),
        }
    }

    /// Returns OutputID: that of the request that was queued last, or 0 if there was none since the control was opened.
    pub(crate) fn output_id(&self) -> u64
        ensures { result ≡ self.now.output_id }
    {
        self.output_id
    }

    /// Returns whether there are requests.
    pub(crate) fn is_outstanding(&self) -> bool
        ensures { result ≡ is_outstanding self.now.output }
    {
        !self.output.is_empty()
    }

    /// Returns whether the control is in the output error state.
    pub(crate) fn is_failed(&self) -> bool
        ensures { result ≡ self.now.output.is_failed }
    {
        self.output.is_failed()
    }

    /// Deletes all requests, and sets OutputID to 0. The OutputIDs to be given go on.
    pub(crate) fn reset(&mut self)
        ensures { self.new ≡ default_writer self.old.output.next }
    {
        self.output_id = 0;
        self.output.clear();
    }

    /// Queues a request, which gets the next OutputID.
    ///
    /// # Errors
    ///
    /// `NoMemory` if memory ran out, and `Exhausted` if no OutputID is left. Then nothing has changed.
    pub(crate) fn put(&mut self, order: Order) -> Result<(), PutFault>
        requires { PrintersTake order }
        ensures queued { OnOk result (self.new ≡ queued_by order self.old) }
        ensures left { OnOk result (self.old.output.next < last_output_id) }
        ensures exhausted { OnErr result (result ≡ Err put_fault.Exhausted → self.old.output.next ≡ last_output_id) }
        ensures unchanged { OnErr result (self.new ≡ self.old) }
    {
        match self.output.put(order) {
            Ok(id) => {
                self.output_id = id;
                Ok(())
            }
            Err((fault, _)) => Err(fault),
        }
    }

    /// Returns the request that is to be done now, with its OutputID: the first one, or `None` if it has failed or
    /// there is none.
    pub(crate) fn first(&self) -> Option<(u64, &Order)>
        ensures request { option_map (λ request. (request.0, request.1.now)) result ≡ request_to_do self.now.output }
        ensures fits { IfSome result (λ request. PrintersTake request.1.now) }
    {
        self.output.first()
    }

    /// Removes the request that was to be done, because it is done, and returns its OutputID.
    pub(crate) fn done(&mut self) -> u64
        requires { IsSome (request_to_do self.old.output) }
        ensures id { option_map (λ request. request.0) (request_to_do self.old.output) ≡ Some result }
        ensures removed { self.new ≡ with_output (request_done self.old.output) self.old }
    {
        self.output.done()
    }

    /// Notes that the request that was to be done has failed. It stays the first, and the output error state begins.
    pub(crate) fn failed(&mut self)
        requires { IsSome (request_to_do self.old.output) }
        ensures { self.new ≡ with_output (request_failed self.old.output) self.old }
    {
        self.output.failed();
    }

    /// Deletes all requests, and ends the output error state. OutputIDs go on.
    pub(crate) fn clear(&mut self)
        ensures { self.new ≡ with_output (output_deleted self.old.output) self.old }
    {
        self.output.clear();
    }

    /// Does what the application's reply to a delivered error of output asks (common chapter, error handling). ER_CLEAR
    /// deletes all requests. After another reply the first request is to be tried again. Other events change nothing.
    pub(crate) fn take_reply(&mut self, event: Event, reply: ErrorReply)
        ensures { self.new ≡ with_output (output_after (Some event) reply self.old.output) self.old }
    {
        let Event::Error(_, _, Locus::Output) = event else {
            return;
        };
        if reply == ErrorReply::Clear {
            self.output.clear();
            return;
        }
        if self.output.is_failed() {
            self.output.retry();
        }
    }
}
