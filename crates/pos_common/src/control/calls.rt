//! The methods that every category has, and the check before each call.
ghost use Rattle.std.specs.Prelude.{◌≡◌, ◌<◌, ⊤, IfSome, Some, length};
ghost use Rattle.pos_service.specs.Calls.{device_found, open_rows, close_rows};
ghost use Rattle.pos_service.specs.Claims.{holder_at, is_own, is_foreign, claim_rows, claimed_by, release_rows, released_by, after_release};
ghost use Rattle.pos_service.specs.Controls.{opened, closed, open_place, stopped};
ghost use Rattle.pos_service.specs.Refusals.{Decided};
ghost use Rattle.pos_common.specs.Checks.{Checks};
ghost use Rattle.pos_common.specs.KeptControls.{TurnsInto};
ghost use Rattle.pos_common.specs.OwnCalls.{ChecksCall};

use super::Control;
use crate::claims::Claims;
use pos_service::claims::{is_foreign, is_own, is_timeout};
use pos_service::display_text::Cursor;
use pos_service::{
    Answer, Call, Category, ClaimNeed, Code, Needs, OpenDevice, OpenTarget, Settings, Value,
};

impl Control {
    /// `open`: opens it for the device that was found, with all properties at their defaults (common chapter).
    ///
    /// # Errors
    ///
    /// Refused with E_ILLEGAL if it is open, E_NOEXIST if there is no such device, and E_NOSERVICE if the device has no
    /// peripheral.
    pub fn open(&mut self, found: OpenTarget) -> Answer
        ensures { TurnsInto (open_rows self.old.control found) result self.old self.new
            (opened self.old.control (device_found found)) }
    {
        if self.device.is_some() {
            return Answer::Refused(Code::Illegal, 0);
        }
        match found {
            OpenTarget::NotThere => Answer::Refused(Code::NoExist, 0),
            OpenTarget::Vacant => Answer::Refused(Code::NoService, 0),
            OpenTarget::There(device) => {
                self.start_over(device);
                Answer::Done(Value::Empty)
            }
        }
    }

    /// Opens it for this device, with all properties at their defaults, and without events.
    fn start_over(&mut self, device: OpenDevice)
        ensures { self.new.control ≡ opened self.old.control (Some device) }
    {
        self.device = Some(device);
        self.settings = Settings::new();
        self.shown.clear();
        self.cursor = Cursor::new();
        self.writer.reset();
        self.stop();
    }

    /// Disables it, and deletes its events, its requests of output and its error states.
    fn stop(&mut self)
        ensures { self.new.control ≡ stopped self.old.control }
    {
        self.is_enabled = false;
        self.writer.clear();
        self.events.clear();
    }

    /// `close`: closes it, disables it, and deletes its events and its output (common chapter).
    ///
    /// # Errors
    ///
    /// Refused with E_CLOSED if it is closed.
    pub fn close(&mut self) -> Answer
        ensures { TurnsInto (close_rows self.old.control) result self.old self.new (closed self.old.control) }
    {
        if self.device.is_none() {
            return Answer::Refused(Code::Closed, 0);
        }
        self.device = None;
        self.stop();
        Answer::Done(Value::Empty)
    }

    /// `claim`: makes it the holder of its device, by its number and the claims of all devices (common chapter). The
    /// timeout is in milliseconds, -1 for no end. It never waits.
    ///
    /// # Errors
    ///
    /// As of `claim_by`. Then nothing has changed.
    pub fn claim(&self, number: usize, claims: &mut Claims, timeout: i128) -> Answer
        requires { IfSome (open_place self.now.control.device) (λ place. place < length claims.old) }
        ensures { let place = open_place self.now.control.device in
            Decided (claim_rows self.now.control (is_foreign number (holder_at claims.old place)) timeout)
            result (claims.new ≡ claims.old)
            ((result ≡ Answer.Done Value.Empty) × (claims.new ≡ claimed_by claims.old place number)) }
    {
        let place = self.place();
        match self.claim_by(number, claims.holder(place), timeout) {
            Answer::Done(value) => {
                claims.claim(place, number);
                Answer::Done(value)
            }
            refusal => refusal,
        }
    }

    /// Returns whether it may hold its device, as `claim` does, by its number and the number of the holder, if any. For
    /// Hard Totals, whose claim the totals have.
    ///
    /// # Errors
    ///
    /// Refused with E_CLOSED if it is closed, E_ILLEGAL if the timeout is below -1, and E_TIMEOUT if another control
    /// holds the device.
    pub fn claim_by(&self, number: usize, holder: Option<usize>, timeout: i128) -> Answer
        ensures { Decided (claim_rows self.now.control (is_foreign number holder) timeout) result ⊤
            (result ≡ Answer.Done Value.Empty) }
    {
        if self.device.is_none() {
            return Answer::Refused(Code::Closed, 0);
        }
        if !is_timeout(timeout) {
            return Answer::Refused(Code::Illegal, 0);
        }
        if is_foreign(number, holder) {
            return Answer::Refused(Code::Timeout, 0);
        }
        Answer::Done(Value::Empty)
    }

    /// `release`: ends its claim of its device, by its number and the claims of all devices (common chapter). A control
    /// of an exclusive-use device is disabled, and its events and its output are deleted. That of a sharable device
    /// stays as it is.
    ///
    /// # Errors
    ///
    /// As of `release_by`. Then nothing has changed.
    pub fn release(&mut self, number: usize, claims: &mut Claims) -> Answer
        ensures { let place = open_place self.old.control.device in
            Decided (release_rows self.old.control (is_own number (holder_at claims.old place))) result
            ((self.new ≡ self.old) × (claims.new ≡ claims.old))
            ((result ≡ Answer.Done Value.Empty)
            × (self.new.control ≡ after_release self.old.control.category self.old.control)
            × (claims.new ≡ released_by claims.old place number)) }
    {
        let place = self.place();
        let answer = self.release_by(number, claims.holder(place));
        claims.release(place, number);
        answer
    }

    /// Changes it as `release` does, by its number and that of the holder, if any. For Hard Totals, whose claim the
    /// totals have.
    ///
    /// # Errors
    ///
    /// Refused with E_CLOSED if it is closed, and E_ILLEGAL if it doesn't hold the device.
    pub fn release_by(&mut self, number: usize, holder: Option<usize>) -> Answer
        ensures { let control = self.old.control in
            TurnsInto (release_rows control (is_own number holder)) result self.old self.new
            (after_release control.category control) }
    {
        if self.device.is_none() {
            return Answer::Refused(Code::Closed, 0);
        }
        if !is_own(number, holder) {
            return Answer::Refused(Code::Illegal, 0);
        }
        if self.category.is_exclusive() {
            self.stop();
        }
        Answer::Done(Value::Empty)
    }

    /// Returns the place of its device, if it is as a call of a category's own requires. It is checked by its number
    /// and the claims of all devices (common chapter).
    ///
    /// # Errors
    ///
    /// The [`Code`] of the refusal, as of `check_by`.
    pub fn check_call(
        &self,
        number: usize,
        claims: &Claims,
        category: Category,
        call: &Call,
    ) -> Result<usize, Code>
        ensures { ChecksCall category number claims.now call.now self.now.control result }
    {
        let Some(place) = self.place() else {
            return Err(Code::Closed);
        };
        self.check(number, claims, call.needs(category))?;
        Ok(place)
    }

    /// Checks that it is as a call or a property requires, by its number and the claims of all devices (common
    /// chapter). For Hard Totals, whose claim the totals have, use `check_by`.
    ///
    /// # Errors
    ///
    /// The [`Code`] of the refusal, as of `check_by`.
    pub fn check(&self, number: usize, claims: &Claims, needs: Needs) -> Result<(), Code>
        ensures { Checks number (holder_at claims.now (open_place self.now.control.device)) self.now.control needs
            result }
    {
        self.check_by(number, claims.holder(self.place()), needs)
    }

    /// Checks that it is as a call or a property requires, by its number and the number of its device's holder, if any
    /// (common chapter).
    ///
    /// # Errors
    ///
    /// The [`Code`] of the first refusal that applies, in this order:
    ///
    /// - E_CLOSED: it has to be open, and isn't.
    /// - E_ILLEGAL: its category doesn't have what is asked.
    /// - E_CLAIMED: no other control may hold the device, and one does.
    /// - E_NOTCLAIMED: it has to hold the device itself, and nobody does.
    /// - E_DISABLED: the device has to be enabled, and isn't.
    pub fn check_by(&self, number: usize, holder: Option<usize>, needs: Needs) -> Result<(), Code>
        ensures { Checks number holder self.now.control needs result }
    {
        if needs.is_open && self.device.is_none() {
            return Err(Code::Closed);
        }
        if !needs.is_there {
            return Err(Code::Illegal);
        }
        if needs.claim != ClaimNeed::Any && is_foreign(number, holder) {
            return Err(Code::Claimed);
        }
        if needs.claim == ClaimNeed::Own && holder.is_none() {
            return Err(Code::NotClaimed);
        }
        if needs.is_enabled && !self.is_enabled {
            return Err(Code::Disabled);
        }
        Ok(())
    }
}
