//! The calls of an application.
ghost use Rattle.std.specs.Prelude.{◌≡◌, ◌<◌, false, MatchOption, Some, length, slice_get};
ghost use Rattle.pos_service.specs.declared.context.OpenDevice.TheVariants as open_device;
ghost use Rattle.pos_service.specs.Calls.{is_common};
ghost use Rattle.pos_service.specs.Hardware.{hardware_of, StaysInService};
ghost use Rattle.pos_common.specs.KeptControls.{controls_of};
ghost use Rattle.pos_counter.specs.KeptDevices.{AreDevicesSound, devices_in};
ghost use Rattle.pos_counter.specs.AtDevices.{CallsAt, IsDoneAt, MayBeCalled, MayCall};
ghost use Rattle.pos_counter.specs.Counters.{IsStep, IsCounterSound, Serves};
ghost use Rattle.pos_counter.specs.Orders.{CountsAt, OrdersAt};
ghost use Rattle.pos_profile.specs.Registries.{devices as registered};
ghost use Rattle.pos_counter.specs.Responses.{answered};
ghost use Rattle.pos_counter.specs.Steps.{CallOf};

use crate::counter::Counter;
use crate::devices::Devices;
use crate::totals_calls::call_files;
use pos_common::{Claims, Control};
use pos_disk::Disk;
use pos_service::{Answer, Call, Category, Code, NoMemory, OpenDevice, Peripheral};
use std::alloc::Global;

impl<D: Disk, P: Peripheral> Counter<D, P> {
    /// Does a call of an application on its control, and returns the answer. That is the first refusal in the call's
    /// table, otherwise what the call gives.
    ///
    /// A crash at any moment leaves what it may leave before the call or after it. Only these calls touch the disk: a
    /// change that isn't buffered, a commit that has changes, and an enabling of Hard Totals that are off. Over any
    /// disk, honest or not, all others are steps, and these change nothing but the totals and their control.
    ///
    /// A call that gives a device an order gives it exactly one, and any other gives none.
    ///
    /// # Errors
    ///
    /// [`NoMemory`] if memory ran out. Then nothing has changed, but the order may have been counted. Refused with
    /// E_ILLEGAL if there is no control of this number, otherwise as the call's table says.
    pub fn call(&mut self, number: usize, call: &Call) -> Result<Answer, NoMemory>
        requires sound { IsCounterSound P.Peripheral self.old }
        ensures step { IsStep D.Disk P.Peripheral self.old (CallOf number call.now) (answered result) self.new }
        ensures sound { IsCounterSound P.Peripheral self.new }
    {
        if number >= self.controls.len() {
            return Ok(Answer::Refused(Code::Illegal, 0));
        }
        match call {
            Call::Open(name) => Ok(self.open(number, name.as_slice())),
            Call::Close => Ok(self.close(number)),
            Call::Claim(timeout) => Ok(self.claim(number, *timeout)),
            Call::Release => Ok(self.release(number)),
            Call::Set(property, value) => self.set(number, *property, value),
            Call::Get(property) => self.get(number, *property),
            _ => self.call_category(number, call),
        }
    }

    /// Does a call of a category's own: by the totals, or by the crate of the category with the peripheral of the
    /// control's device.
    ///
    /// # Errors
    ///
    /// As of `call`.
    fn call_category(&mut self, number: usize, call: &Call) -> Result<Answer, NoMemory>
        requires in_range { number < length self.old.controls.items }
        requires own { is_common call.now ≡ false }
        requires sound { IsCounterSound P.Peripheral self.old }
        ensures { Serves D.Disk P.Peripheral self.old (CallOf number call.now) (answered result) self.new }
    {
        match self.controls[number].device() {
            None => Ok(Answer::Refused(Code::Closed, 0)),
            Some(OpenDevice::Totals) => self.call_totals(number, call),
            Some(OpenDevice::At(place)) => call_there(
                self.alloc,
                &mut self.controls,
                number,
                place,
                &self.claims,
                &mut self.devices,
                call,
            ),
        }
    }

    /// Checks a call of a category's own on a control that has the Hard Totals open, and passes it on to them.
    ///
    /// # Errors
    ///
    /// As of `call`.
    fn call_totals(&mut self, number: usize, call: &Call) -> Result<Answer, NoMemory>
        requires in_range { number < length self.old.controls.items }
        requires totals { MatchOption (slice_get (controls_of self.old.controls.items) number) ⊥ (λ control.
            control.device ≡ Some open_device.Totals) }
        requires own { is_common call.now ≡ false }
        requires sound { IsCounterSound P.Peripheral self.old }
        ensures { Serves D.Disk P.Peripheral self.old (CallOf number call.now) (answered result) self.new }
    {
        let control = &self.controls[number];
        let needs = call.needs(Category::HardTotals);
        if let Err(code) = control.check_by(number, self.totals.area(), needs) {
            return Ok(Answer::Refused(code, 0));
        }
        call_files(&mut self.totals, number, call)
    }
}

/// Passes a call of the control with a number on to the peripheral of the device at a place.
///
/// # Errors
///
/// As of `Counter::call`.
#[inline(always)]
#[tactic(auto, using(crate::proofs::DeviceListLemmas::done_there, crate::proofs::OrderLemmas::counts_there))]
fn call_there<P: Peripheral>(
    alloc: Global,
    controls: &mut [Control],
    number: usize,
    place: usize,
    claims: &Claims,
    devices: &mut Devices<P>,
    call: &Call,
) -> Result<Answer, NoMemory>
    requires in_range { number < length controls.old }
    requires sound { AreDevicesSound P.Peripheral devices.old }
    requires may { let devices = devices_in P.Peripheral devices.old in
        MayBeCalled devices place (controls_of controls.old) number }
    ensures done { IsDoneAt (devices_in P.Peripheral devices.old) place (CallsAt number claims.now call.now result)
        controls.old controls.new (devices_in P.Peripheral devices.new) }
    ensures orders { CountsAt (registered P.Peripheral devices.old.registry) place
        (OrdersAt number claims.now call.now result (controls_of controls.old))
        (registered P.Peripheral devices.new.registry) }
    ensures sound { AreDevicesSound P.Peripheral devices.new }
{
    let peripheral = devices.registry.serving(place);
    call_device(alloc, controls, number, claims, peripheral, call)
}

/// Does a call of the control with a number on its device, which this peripheral serves.
///
/// # Errors
///
/// As of `Counter::call`.
#[inline(always)]
fn call_device<P: Peripheral>(
    alloc: Global,
    controls: &mut [Control],
    number: usize,
    claims: &Claims,
    peripheral: &mut P,
    call: &Call,
) -> Result<Answer, NoMemory>
    requires in_range { number < length controls.old }
    requires unparked { (P.Peripheral.state peripheral.old).is_parked ≡ false }
    requires may { let kind = (P.Peripheral.state peripheral.old).kind in
        MatchOption (slice_get (controls_of controls.old) number) ⊥ (MayCall kind) }
    ensures called { let state = P.Peripheral.state in CallsAt number claims.now call.now result
        (controls_of controls.old) (hardware_of (state peripheral.old))
        (controls_of controls.new) (hardware_of (state peripheral.new)) }
    ensures orders { let state = P.Peripheral.state in
        OrdersAt number claims.now call.now result (controls_of controls.old) (state peripheral.old).kind
        (state peripheral.old).orders (state peripheral.new).orders }
    ensures in_service { let state = P.Peripheral.state in
        StaysInService (state peripheral.old) (state peripheral.new) }
{
    match controls[number].category() {
        Category::CashDrawer => pos_drawer::call(controls, number, claims, peripheral, call),
        Category::Scanner => pos_scanner::call(controls, number, claims, peripheral, call),
        Category::LineDisplay => {
            pos_display::call(alloc, controls, number, claims, peripheral, call)
        }
        Category::PosPrinter => {
            pos_printer::call(alloc, controls, number, claims, peripheral, call)
        }
        Category::HardTotals => unreachable!(),
    }
}
