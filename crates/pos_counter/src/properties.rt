//! The properties of a control, by what is known of its device (common chapter, and the categories' chapters).
ghost use Rattle.std.specs.Prelude.{◌≡◌, ◌<◌, ◌&&◌, ℕ, List, length, not};
ghost use Rattle.pos_service.specs.declared.call.Call.TheVariants as call;
ghost use Rattle.pos_store.specs.Standing.{Standing};
ghost use Rattle.pos_counter.specs.Counters.{IsCounterSound, Serves, machine};
ghost use Rattle.pos_counter.specs.Leaving.{part_with};
ghost use Rattle.pos_common.specs.KeptControls.{SetsTo};
ghost use Rattle.pos_service.specs.Claims.{is_own};
ghost use Rattle.pos_service.specs.Controls.{open_place};
ghost use Rattle.pos_service.specs.Hardware.{signs_in};
ghost use Rattle.pos_service.specs.Properties.{after_set, set_rows, tells_power};
ghost use Rattle.pos_counter.specs.KeptDevices.{devices_in};
ghost use Rattle.pos_counter.specs.Machine.{device_at, hardware_in, holder_in, holder_of, kind_in};
ghost use Rattle.pos_counter.specs.Responses.{answered};
ghost use Rattle.pos_counter.specs.Steps.{Step, CallOf, context_of};
ghost use Rattle.pos_counter.specs.FileCalls.{IsRecovering};
ghost use Rattle.pos_counter.specs.Totals.{asks_recovery, files_summary};

use crate::counter::Counter;
use crate::devices::Devices;
use pos_common::{Claims, Control};
use pos_disk::Disk;
use pos_service::claims::is_own;
use pos_service::{
    Answer, FilesSummary, NoMemory, OpenDevice, Peripheral, Property, PropertyContext, Value,
};
use pos_totals::Totals;

impl<D: Disk, P: Peripheral> Counter<D, P> {
    /// Returns the value of a property of the control with a number.
    ///
    /// # Errors
    ///
    /// [`NoMemory`] if there is none for a copy of bytes. Refused as of `Control::get`.
    #[inline(always)]
    pub(crate) fn get(&self, number: usize, property: Property) -> Result<Answer, NoMemory>
        requires { number < length self.now.controls.items }
        ensures { (left : List Standing) (failures : ℕ) →
            let machine = machine P.Peripheral self.now (part_with self.now.totals.totals left failures) in
            Step machine (CallOf number (call.Get property)) (answered result) machine }
    {
        let control = &self.controls[number];
        let holder = find_holder(control, &self.claims, self.totals.area());
        let context = self.find_context(control, is_own(number, holder), number);
        control.get(number, holder, property, &context)
    }

    /// Returns what is known of the control with a number and of its device, by whether it holds that.
    fn find_context(&self, control: &Control, is_claimed: bool, number: usize) -> PropertyContext
        ensures { (left : List Standing) (failures : ℕ) →
            let control = control.now.control in
            let machine = machine P.Peripheral self.now (part_with self.now.totals.totals left failures) in
            is_claimed ≡ is_own number (holder_of machine control) → result ≡ context_of machine number control }
    {
        let place = control.place();
        PropertyContext {
            is_claimed,
            in_transaction: self.totals.in_transaction(number),
            kind: self.devices.kind_at(place),
            signs: self.devices.signs_at(place),
            totals_size: self.totals.size(),
            files: find_files_summary(&self.totals),
        }
    }

    /// Sets a property of the control with a number. If that enables a control of Hard Totals that are off, they are
    /// recovered first.
    ///
    /// # Errors
    ///
    /// [`NoMemory`] if there is none for the recovery or for the event of the device's power. Then nothing has changed.
    /// Refused as of `Control::set`, and if a recovery fails:
    ///
    /// - E_NOHARDWARE: the disk has no totals.
    /// - E_FAILURE: the disk is damaged or fails, or too few handles are left.
    pub(crate) fn set(
        &mut self,
        number: usize,
        property: Property,
        value: &Value,
    ) -> Result<Answer, NoMemory>
        requires in_range { number < length self.old.controls.items }
        requires sound { IsCounterSound P.Peripheral self.old }
        ensures { Serves D.Disk P.Peripheral self.old (CallOf number (call.Set property value.now))
            (answered result) self.new }
    {
        if is_recovering(
            &self.controls[number],
            self.totals.is_ready(),
            property,
            value,
        ) {
            return self.set_recovered(number, property, value);
        }
        let control = &mut self.controls[number];
        let holder = find_holder(control, &self.claims, self.totals.area());
        set_control(control, number, holder, &self.devices, property, value)
    }

    /// Recovers totals that are off, and then enables a control of Hard Totals.
    ///
    /// # Errors
    ///
    /// As of `set`.
    fn set_recovered(
        &mut self,
        number: usize,
        property: Property,
        value: &Value,
    ) -> Result<Answer, NoMemory>
        requires in_range { number < length self.old.controls.items }
        requires sound { IsCounterSound P.Peripheral self.old }
        requires recovers { IsRecovering self.old.controls.items number property value.now self.old.totals.totals.mode }
        ensures { Serves D.Disk P.Peripheral self.old (CallOf number (call.Set property value.now))
            (answered result) self.new }
    {
        let area = self.totals.area();
        let holder = find_holder(&self.controls[number], &self.claims, area);
        match self.totals.recover() {
            Ok(()) => {
                let control = &mut self.controls[number];
                set_control(control, number, holder, &self.devices, property, value)
            }
            Err(fault) => match fault.code() {
                Ok(code) => Ok(Answer::Refused(code, 0)),
                Err(NoMemory) => Err(NoMemory),
            },
        }
    }
}

/// Returns the number of the control that holds a control's device, by who holds the area.
pub(crate) fn find_holder(control: &Control, claims: &Claims, area: Option<usize>) -> Option<usize>
    ensures { result ≡ holder_in claims.now area control.now.control.device }
{
    match control.device() {
        None => None,
        Some(OpenDevice::Totals) => area,
        Some(OpenDevice::At(place)) => claims.holder(Some(place)),
    }
}

/// Sets a property of a control, by who holds its device, and by what that is and shows.
///
/// # Errors
///
/// As of `Control::set`.
fn set_control<P: Peripheral>(
    control: &mut Control,
    number: usize,
    holder: Option<usize>,
    devices: &Devices<P>,
    property: Property,
    value: &Value,
) -> Result<Answer, NoMemory>
    ensures { let was = control.old.control in
        let device = device_at (devices_in P.Peripheral devices.now) (open_place was.device) in
        SetsTo (set_rows number holder (kind_in device) was property value.now) (tells_power was property value.now)
        result control.old control.new (after_set (signs_in (hardware_in device)) was property value.now) }
{
    let place = control.place();
    let kind = devices.kind_at(place);
    let signs = devices.signs_at(place);
    control.set(number, holder, kind, signs, property, value)
}

/// Returns what is known of the files, or `None` while the totals are off.
fn find_files_summary<D: Disk>(totals: &Totals<D>) -> Option<FilesSummary>
    ensures { result ≡ files_summary totals.now.totals.layout totals.now.totals.mode }
{
    if !totals.is_ready() {
        return None;
    }
    Some(FilesSummary {
        free: totals.free(),
        count: totals.count(),
    })
}

/// Returns whether setting the property recovers the totals: it enables a control that has them open, while they are
/// off.
fn is_recovering(control: &Control, is_ready: bool, property: Property, value: &Value) -> bool
    ensures { result ≡ (asks_recovery control.now.control property value.now && not is_ready) }
{
    matches!(control.device(), Some(OpenDevice::Totals))
        && !control.is_enabled()
        && matches!(
            (property, value),
            (Property::DeviceEnabled, Value::Truth(true))
        )
        && !is_ready
}
