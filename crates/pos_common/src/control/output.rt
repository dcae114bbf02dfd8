//! The asynchronous output of a control.
ghost use Rattle.std.specs.Prelude.{◌≡◌, ◌≤◌, ◌==◌, ◌∷◌, [], Some, MatchResult, IfSome, IsSome, option_map};
ghost use Rattle.pos_service.specs.Controls.{completed, output_failed, queued, without_output};
ghost use Rattle.pos_service.specs.Output.{is_outstanding, request_to_do};
ghost use Rattle.pos_service.specs.Peripherals.{PrintersTake};
ghost use Rattle.pos_service.specs.Actions.{id_rows};
ghost use Rattle.pos_common.specs.DueRequests.{first_request};
ghost use Rattle.pos_common.specs.KeptControls.{TurnsInto};

use super::Control;
use pos_output::PutFault;
use pos_service::{Answer, Code, NoMemory, Order, Value};

impl Control {
    /// Returns AsyncMode: whether requests are queued and done later (chapter POS Printer).
    pub fn is_async(&self) -> bool
        ensures { result ≡ self.now.control.settings.async_mode }
    {
        self.settings.async_mode
    }

    /// Returns whether it has requests that are still to do.
    pub fn has_output(&self) -> bool
        ensures { result ≡ is_outstanding self.now.control.writer.output }
    {
        self.writer.is_outstanding()
    }

    /// Queues a request, which gets the next OutputID (common chapter, asynchronous output).
    ///
    /// # Errors
    ///
    /// [`NoMemory`] if memory ran out. Refused with E_FAILURE if no OutputID is left. Then nothing has changed.
    pub fn queue(&mut self, order: Order) -> Result<Answer, NoMemory>
        requires { PrintersTake order }
        ensures { MatchResult result
            (λ answer. TurnsInto (id_rows self.old.control) answer self.old self.new (queued order self.old.control))
            (λ _. self.new ≡ self.old) }
    {
        match self.writer.put(order) {
            Ok(()) => Ok(Answer::Done(Value::Empty)),
            Err(PutFault::Exhausted) => Ok(Answer::Refused(Code::Failure, 0)),
            Err(PutFault::NoMemory) => Err(NoMemory),
        }
    }

    /// Returns the request that is to be done now, with its OutputID: the first one. It is `None` unless the control
    /// has the device at this place open and enabled, and is in no output error state. Every printer takes its order.
    pub fn first_request(&self, place: usize) -> Option<(u64, &Order)>
        ensures request { let told = option_map (λ request. (request.0, request.1.now)) result in
            told ≡ first_request place self.now.control }
        ensures fits { IfSome result (λ request. PrintersTake request.1.now) }
    {
        if !self.listens(place) {
            return None;
        }
        self.writer.first()
    }

    /// Removes the request that was to be done, because it is done, and returns its OutputID. An OutputCompleteEvent
    /// with that OutputID is enqueued (common chapter, asynchronous output).
    pub fn complete_request(&mut self) -> u64
        requires request { IsSome (request_to_do self.old.control.writer.output) }
        requires room { 1 ≤ self.old.spare }
        ensures id { option_map (λ request. request.0) (request_to_do self.old.control.writer.output) ≡ Some result }
        ensures completed { self.new.control ≡ completed result self.old.control }
    {
        let id = self.writer.done();
        self.events.complete(id);
        id
    }

    /// Notes that the request that was to be done has failed. It stays the first, the output error state begins, and an
    /// ErrorEvent with EL_OUTPUT is enqueued (common chapter, error handling).
    pub fn fail_request(&mut self, code: Code, extended: u32)
        requires request { IsSome (request_to_do self.old.control.writer.output) }
        requires room { 1 ≤ self.old.spare }
        ensures { self.new.control ≡ output_failed code extended self.old.control }
    {
        self.writer.failed();
        self.events.output_error(code, extended);
    }

    /// `clearOutput`: deletes all requests and the ErrorEvents of output, and ends the output error state.
    /// OutputCompleteEvents stay (common chapter).
    pub(crate) fn clear_output(&mut self)
        ensures { self.new.control ≡ without_output self.old.control }
    {
        self.writer.clear();
        self.events.clear_output();
    }
}
