//! The calls that every category has.
ghost use Rattle.std.specs.Prelude.{◌≡◌, ◌<◌, Some, None, length};
ghost use Rattle.pos_service.specs.declared.call.Call.TheVariants as call;
ghost use Rattle.pos_service.specs.Claims.{is_own, claim_rows, release_rows, after_release};
ghost use Rattle.pos_totals.specs.TotalsClaims.{is_area_taken};
ghost use Rattle.pos_service.specs.Refusals.{Decided};
ghost use Rattle.pos_counter.specs.Counters.{IsCounterSound, Serves, machine};
ghost use Rattle.pos_counter.specs.KeptDevices.{AreDevicesSound};
ghost use Rattle.pos_counter.specs.Machine.{found_under, totals_under};
ghost use Rattle.pos_counter.specs.Steps.{CallOf, Answered};
ghost use Rattle.pos_counter.specs.Totals.{TotalsPart};

use crate::counter::Counter;
use pos_common::Control;
use pos_disk::Disk;
use pos_service::{Answer, Bytes, Category, Code, OpenDevice, OpenTarget, Peripheral, Value};
use pos_totals::Totals;

impl<D: Disk, P: Peripheral> Counter<D, P> {
    /// `open`: opens a control for the first device with a name (common chapter).
    ///
    /// # Errors
    ///
    /// Refused with E_ILLEGAL if the control is open, E_NOEXIST if its category has no such device, and E_NOSERVICE if
    /// the device has no peripheral.
    pub(crate) fn open(&mut self, number: usize, name: &[u8]) -> Answer
        requires in_range { number < length self.old.controls.items }
        requires sound { IsCounterSound P.Peripheral self.old }
        ensures { Serves D.Disk P.Peripheral self.old (CallOf number (call.Open name.now)) (Answered result)
            self.new }
    {
        let found = self.find_target(self.controls[number].category(), name);
        self.controls[number].open(found)
    }

    /// Returns what a control of a category finds under a name.
    fn find_target(&self, category: Category, name: &[u8]) -> OpenTarget
        requires sound { AreDevicesSound P.Peripheral self.now.devices }
        ensures { (part : TotalsPart) →
            result ≡ found_under (machine P.Peripheral self.now part) category name.now }
    {
        match category {
            Category::HardTotals => find_totals(&self.totals_name, name),
            _ => self.devices.find_for(category, name),
        }
    }

    /// `close`: closes a control, and frees what it holds (common chapter).
    ///
    /// # Errors
    ///
    /// Refused with E_CLOSED if the control is closed.
    pub(crate) fn close(&mut self, number: usize) -> Answer
        requires in_range { number < length self.old.controls.items }
        requires sound { IsCounterSound P.Peripheral self.old }
        ensures { Serves D.Disk P.Peripheral self.old (CallOf number call.Close) (Answered result) self.new }
    {
        let control = &mut self.controls[number];
        match control.device() {
            None => Answer::Refused(Code::Closed, 0),
            Some(OpenDevice::Totals) => {
                self.totals.drop_control(number);
                control.close()
            }
            Some(OpenDevice::At(place)) => {
                self.claims.release(Some(place), number);
                control.close()
            }
        }
    }

    /// `claim`: makes a control the holder of its device (common chapter). The timeout is in milliseconds, -1 for no
    /// end. It never waits.
    ///
    /// # Errors
    ///
    /// Refused with E_CLOSED if the control is closed, E_ILLEGAL if the timeout is below -1, and E_TIMEOUT if another
    /// control holds the device.
    pub(crate) fn claim(&mut self, number: usize, timeout: i128) -> Answer
        requires in_range { number < length self.old.controls.items }
        requires sound { IsCounterSound P.Peripheral self.old }
        ensures { Serves D.Disk P.Peripheral self.old (CallOf number (call.Claim timeout)) (Answered result)
            self.new }
    {
        let control = &self.controls[number];
        match control.device() {
            None => Answer::Refused(Code::Closed, 0),
            Some(OpenDevice::Totals) => claim_area(control, &mut self.totals, number, timeout),
            Some(OpenDevice::At(_)) => control.claim(number, &mut self.claims, timeout),
        }
    }

    /// `release`: ends a control's claim of its device (common chapter).
    ///
    /// # Errors
    ///
    /// Refused with E_CLOSED if the control is closed, and E_ILLEGAL if it doesn't hold the device.
    pub(crate) fn release(&mut self, number: usize) -> Answer
        requires in_range { number < length self.old.controls.items }
        requires sound { IsCounterSound P.Peripheral self.old }
        ensures { Serves D.Disk P.Peripheral self.old (CallOf number call.Release) (Answered result) self.new }
    {
        let control = &mut self.controls[number];
        match control.device() {
            None => Answer::Refused(Code::Closed, 0),
            Some(OpenDevice::Totals) => release_area(control, &mut self.totals, number),
            Some(OpenDevice::At(_)) => control.release(number, &mut self.claims),
        }
    }
}

/// Returns what a control of Hard Totals finds under a name, by the name that they have, if they are there.
fn find_totals(totals: &Option<Bytes>, name: &[u8]) -> OpenTarget
    ensures { result ≡ totals_under totals.now name.now }
{
    match totals {
        Some(totals) if name == totals.as_slice() => OpenTarget::There(OpenDevice::Totals),
        _ => OpenTarget::NotThere,
    }
}

/// `claim` of Hard Totals: of the area, which is taken if another control holds it or a file.
///
/// # Errors
///
/// As of `Counter::claim`.
fn claim_area<D: Disk>(
    control: &Control,
    totals: &mut Totals<D>,
    number: usize,
    timeout: i128,
) -> Answer
    ensures answer { Decided (claim_rows control.now.control (is_area_taken totals.old.totals number) timeout) result
        (totals.new.totals ≡ totals.old.totals)
        ((result ≡ Answer.Done Value.Empty) × (totals.new.totals ≡ record totals.old.totals { area = Some number })) }
    ensures rest { totals.new.totals ≡ record totals.old.totals { area = totals.new.totals.area } }
    ensures disk { totals.new.disk ≡ totals.old.disk }
{
    match control.claim_by(number, totals.area(), timeout) {
        Answer::Done(value) => match totals.claim_area(number) {
            Ok(()) => Answer::Done(value),
            Err(code) => Answer::Refused(code, 0),
        },
        refusal => refusal,
    }
}

/// `release` of Hard Totals: of the area. The control keeps the files that it holds.
///
/// # Errors
///
/// As of `Counter::release`.
fn release_area<D: Disk>(control: &mut Control, totals: &mut Totals<D>, number: usize) -> Answer
    ensures answer { Decided (release_rows control.old.control (is_own number totals.old.totals.area)) result
        ((control.new ≡ control.old) × (totals.new.totals ≡ totals.old.totals))
        ((result ≡ Answer.Done Value.Empty)
        × (control.new.control ≡ after_release control.old.control.category control.old.control)
        × (totals.new.totals ≡ record totals.old.totals { area = None })) }
    ensures rest { totals.new.totals ≡ record totals.old.totals { area = totals.new.totals.area } }
    ensures disk { totals.new.disk ≡ totals.old.disk }
{
    match control.release_by(number, totals.area()) {
        Answer::Done(value) => match totals.release_area(number) {
            Ok(()) => Answer::Done(value),
            Err(code) => Answer::Refused(code, 0),
        },
        refusal => refusal,
    }
}
