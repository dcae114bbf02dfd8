//! The properties of a control: how each is set and read.
ghost use Rattle.std.specs.Prelude.{◌≡◌, ◌&&◌, ◌∷◌, [], ⊤, true, false, not, is_none, Option};
ghost use Rattle.pos_service.specs.declared.kind.Kind.{Kind};
ghost use Rattle.pos_service.specs.Controls.{state_of};
ghost use Rattle.pos_service.specs.Categories.{reports_power};
ghost use Rattle.pos_service.specs.Properties.{row_of, is_of_bytes, set_rows, value_rows, cursor_after, is_notify_refused, tells_power, after_set, get_rows, property_of, notify_number, power_reporting, power_state};
ghost use Rattle.pos_service.specs.Kinds.{rows_of, columns_of};
ghost use Rattle.pos_service.specs.Numbers.{is_index, is_one, is_up_to};
ghost use Rattle.pos_service.specs.Refusals.{Decided, when};
ghost use Rattle.pos_common.specs.KeptControls.{TurnsInto, SetsTo, Gets};

use super::Control;
use crate::status::power_status;
use pos_service::numbers::{to_count, to_index};
use pos_service::{
    Answer, Bytes, Code, Kind, NoMemory, Property, PropertyContext, Signs, Value, chars_of,
    columns_of, rows_of,
};

impl Control {
    /// Sets a property (common chapter, chapter Line Display). The number is the control's, and the holder is the
    /// number of the control that holds the device. The kind and the signs are those of the device's peripheral, if it
    /// has one.
    ///
    /// A value is checked even if the property has it already. If DeviceEnabled becomes true and the control is
    /// notified of its device's power, a StatusUpdateEvent reports that (common chapter, device power reporting).
    ///
    /// # Errors
    ///
    /// [`NoMemory`] if there is no room for that event. Then nothing has changed. Refused in this order:
    ///
    /// - E_CLOSED: the control is closed.
    /// - E_ILLEGAL: its category doesn't have the property, or it isn't writable.
    /// - E_CLAIMED or E_NOTCLAIMED: DeviceEnabled of an exclusive-use device, which another control holds, or nobody.
    /// - E_ILLEGAL: the value is of another type or out of range.
    /// - E_ILLEGAL: PowerNotify would change while the device is enabled, or be PN_ENABLED though power isn't reported.
    pub fn set(
        &mut self,
        number: usize,
        holder: Option<usize>,
        kind: Option<Kind>,
        signs: Signs,
        property: Property,
        value: &Value,
    ) -> Result<Answer, NoMemory>
        ensures { let control = self.old.control in
            SetsTo (set_rows number holder kind control property value.now) (tells_power control property value.now)
            result self.old self.new (after_set signs control property value.now) }
    {
        match self.check_by(number, holder, property.needs_to_set(self.category)) {
            Ok(()) => self.set_value(kind, signs, property, value),
            Err(code) => Ok(Answer::Refused(code, 0)),
        }
    }

    /// Sets a property, by what the device's peripheral is and shows.
    ///
    /// # Errors
    ///
    /// [`NoMemory`] if memory ran out. Then nothing has changed. Refused with E_ILLEGAL if the value is of another type
    /// or out of range, or if PowerNotify can't have it now.
    fn set_value(
        &mut self,
        kind: Option<Kind>,
        signs: Signs,
        property: Property,
        value: &Value,
    ) -> Result<Answer, NoMemory>
        requires { (row_of property).is_settable ≡ true }
        ensures { let control = self.old.control in
            SetsTo (value_rows kind control property value.now) (tells_power control property value.now)
            result self.old self.new (after_set signs control property value.now) }
    {
        match value {
            Value::Truth(is_true) => self.set_truth(signs, property, *is_true),
            Value::Number(number) => match property {
                Property::PowerNotify => Ok(self.set_power_notify(*number)),
                Property::CursorRow => Ok(self.set_row(kind, *number)),
                Property::CursorColumn => Ok(self.set_column(kind, *number)),
                _ => Ok(Answer::Refused(Code::Illegal, 0)),
            },
            _ => Ok(Answer::Refused(Code::Illegal, 0)),
        }
    }

    /// Sets PowerNotify: 0 or 1.
    ///
    /// # Errors
    ///
    /// Refused with E_ILLEGAL if the number is another one, or changes while the device is enabled. So is 1 if power
    /// isn't reported.
    fn set_power_notify(&mut self, number: i128) -> Answer
        ensures { let control = self.old.control in
            TurnsInto (when (not (is_up_to 1 number)) Code.Illegal
            ∷ when (is_notify_refused control Property.PowerNotify (Value.Number number)) Code.Illegal ∷ []) result
            self.old self.new (record control { settings = record control.settings { power_notify = is_one number } }) }
    {
        let Some(number) = to_count(number, 1) else {
            return Answer::Refused(Code::Illegal, 0);
        };
        let is_on = number == 1;
        if self.is_enabled && is_on != self.settings.power_notify {
            return Answer::Refused(Code::Illegal, 0);
        }
        if is_on && !self.category.reports_power() {
            return Answer::Refused(Code::Illegal, 0);
        }
        self.settings.power_notify = is_on;
        Answer::Done(Value::Empty)
    }

    /// Sets CursorRow: 0 to Rows - 1 (chapter Line Display).
    ///
    /// # Errors
    ///
    /// Refused with E_ILLEGAL if the number is out of range.
    fn set_row(&mut self, kind: Option<Kind>, number: i128) -> Answer
        ensures { let control = self.old.control in
            TurnsInto (when (not (is_index (rows_of kind) number)) Code.Illegal ∷ []) result self.old self.new
            (record control { cursor = cursor_after control.cursor Property.CursorRow (Value.Number number) }) }
    {
        let Some(row) = to_index(number, rows_of(kind)) else {
            return Answer::Refused(Code::Illegal, 0);
        };
        self.cursor.place.row = row;
        Answer::Done(Value::Empty)
    }

    /// Sets CursorColumn: 0 to Columns (chapter Line Display).
    ///
    /// # Errors
    ///
    /// Refused with E_ILLEGAL if the number is out of range.
    fn set_column(&mut self, kind: Option<Kind>, number: i128) -> Answer
        ensures { let control = self.old.control in
            TurnsInto (when (not (is_up_to (columns_of kind) number)) Code.Illegal ∷ []) result self.old self.new
            (record control { cursor = cursor_after control.cursor Property.CursorColumn (Value.Number number) }) }
    {
        let Some(column) = to_count(number, columns_of(kind)) else {
            return Answer::Refused(Code::Illegal, 0);
        };
        self.cursor.place.column = column;
        Answer::Done(Value::Empty)
    }

    /// Sets a property that is a truth value, by what the device's peripheral shows.
    ///
    /// # Errors
    ///
    /// [`NoMemory`] if memory ran out. Then nothing has changed. Refused with E_ILLEGAL if the property isn't a truth
    /// value.
    fn set_truth(
        &mut self,
        signs: Signs,
        property: Property,
        is_true: bool,
    ) -> Result<Answer, NoMemory>
        requires { (row_of property).is_settable ≡ true }
        ensures { let control = self.old.control in (kind : Option Kind) →
            SetsTo (value_rows kind control property (Value.Truth is_true))
            (tells_power control property (Value.Truth is_true))
            result self.old self.new (after_set signs control property (Value.Truth is_true)) }
    {
        match property {
            Property::DeviceEnabled => return self.set_enabled(signs, is_true),
            Property::CursorUpdate => self.cursor.update = is_true,
            _ => {
                if !self.settings.set_truth(property, is_true) {
                    return Ok(Answer::Refused(Code::Illegal, 0));
                }
            }
        }
        Ok(Answer::Done(Value::Empty))
    }

    /// Sets DeviceEnabled. If it becomes true, and the control is notified of the device's power, a StatusUpdateEvent
    /// reports that, as the peripheral shows it.
    ///
    /// # Errors
    ///
    /// [`NoMemory`] if there is no room for that event. Then nothing has changed.
    fn set_enabled(&mut self, signs: Signs, is_enabled: bool) -> Result<Answer, NoMemory>
        ensures { let control = self.old.control in let value = Value.Truth is_enabled in
            SetsTo [] (tells_power control Property.DeviceEnabled value) result self.old self.new
            (after_set signs control Property.DeviceEnabled value) }
    {
        if is_enabled && !self.is_enabled && self.is_notified() {
            self.events.room(1)?;
            self.events.status(power_status(signs.powered));
        }
        self.is_enabled = is_enabled;
        Ok(Answer::Done(Value::Empty))
    }

    /// Returns the value of a property (common chapter, chapters Cash Drawer, Scanner, Line Display, POS Printer and
    /// Hard Totals). The number is the control's, and the holder is the number of the control that holds the device.
    /// The context is what is known of the device. Bytes are copied.
    ///
    /// # Errors
    ///
    /// [`NoMemory`] if there is no memory for that copy. Refused in this order:
    ///
    /// - E_CLOSED: the control is closed, and the property isn't State.
    /// - E_ILLEGAL: its category doesn't have the property.
    /// - E_CLAIMED or E_NOTCLAIMED: the property is for the holder of the device alone, and another control holds it,
    ///   or nobody.
    /// - E_DISABLED: the property is of an enabled device, and the device is disabled.
    /// - E_FAILURE: the property is of the files, and the totals are off.
    pub fn get(
        &self,
        number: usize,
        holder: Option<usize>,
        property: Property,
        context: &PropertyContext,
    ) -> Result<Answer, NoMemory>
        ensures { Gets (get_rows number holder self.now.control context.now property) property
            (property_of self.now.control context.now property) result }
    {
        match self.check_by(number, holder, property.needs(self.category)) {
            Ok(()) => self.read_property(property, context),
            Err(code) => Ok(Answer::Refused(code, 0)),
        }
    }

    /// Returns the value of a property, by what is known of the control's device. Bytes are copied.
    ///
    /// # Errors
    ///
    /// [`NoMemory`] if there is no memory for that copy. Refused with E_FAILURE if the property is of the files and the
    /// totals are off.
    fn read_property(
        &self,
        property: Property,
        context: &PropertyContext,
    ) -> Result<Answer, NoMemory>
        ensures { Gets (when ((row_of property).is_of_files && is_none context.now.files) Code.Failure ∷ []) property
            (property_of self.now.control context.now property) result }
    {
        match property {
            Property::ScanData => Ok(done_with(self.shown.copy_of_bytes()?)),
            Property::ScanDataLabel => Ok(done_with(self.shown.copy_of_label()?)),
            _ => Ok(self.value_of(property, context)),
        }
    }

    /// Returns State: S_CLOSED 1, S_IDLE 2, S_BUSY 3 or S_ERROR 4 (common chapter).
    fn state(&self) -> u32
        ensures { result ≡ state_of self.now.control }
    {
        if self.device.is_none() {
            return 1;
        }
        if self.events.in_error() || self.writer.is_failed() {
            return 4;
        }
        if self.writer.is_outstanding() {
            return 3;
        }
        2
    }

    /// Returns CapPowerReporting: PR_STANDARD 1 or PR_NONE 0 (common chapter).
    fn power_reporting(&self) -> u32
        ensures { result ≡ power_reporting (reports_power self.now.control.category) }
    {
        if self.category.reports_power() { 1 } else { 0 }
    }

    /// Returns PowerNotify: PN_ENABLED 1 or PN_DISABLED 0 (common chapter).
    fn notify_number(&self) -> u32
        ensures { result ≡ notify_number self.now.control.settings.power_notify }
    {
        if self.settings.power_notify { 1 } else { 0 }
    }

    /// Returns PowerState, by what the device's peripheral shows (common chapter). It is PS_ONLINE 2001 or
    /// PS_OFF_OFFLINE 2004 while the device is enabled and the control is notified of its power, otherwise PS_UNKNOWN
    /// 2000.
    fn power_state(&self, signs: Signs) -> u32
        ensures { result ≡ power_state self.now.control signs }
    {
        if !self.is_enabled || !self.is_notified() {
            return 2000;
        }
        power_status(signs.powered)
    }

    /// Returns the value of a property that isn't one of bytes, by what is known of the control's device.
    ///
    /// # Errors
    ///
    /// Refused with E_FAILURE if the property is of the files and the totals are off.
    fn value_of(&self, property: Property, context: &PropertyContext) -> Answer
        requires { is_of_bytes property ≡ false }
        ensures { Decided (when ((row_of property).is_of_files && is_none context.now.files) Code.Failure ∷ []) result ⊤
            (result ≡ Answer.Done (property_of self.now.control context.now property)) }
    {
        if let Some(is_true) = self.settings.truth(property) {
            return Answer::Done(Value::Truth(is_true));
        }
        match property {
            Property::State => Answer::Done(Value::Number(i128::from(self.state()))),
            Property::Claimed => Answer::Done(Value::Truth(context.is_claimed)),
            Property::DeviceEnabled => Answer::Done(Value::Truth(self.is_enabled)),
            Property::CapPowerReporting => {
                Answer::Done(Value::Number(i128::from(self.power_reporting())))
            }
            Property::PowerNotify => Answer::Done(Value::Number(i128::from(self.notify_number()))),
            Property::PowerState => {
                Answer::Done(Value::Number(i128::from(self.power_state(context.signs))))
            }
            Property::DataCount => Answer::Done(Value::Number(self.events.data_count() as i128)),
            Property::ScanDataType => Answer::Done(Value::Number(i128::from(self.shown.kind()))),
            Property::Rows => Answer::Done(Value::Number(i128::from(rows_of(context.kind)))),
            Property::Columns => Answer::Done(Value::Number(i128::from(columns_of(context.kind)))),
            Property::CursorRow => Answer::Done(Value::Number(i128::from(self.cursor.place.row))),
            Property::CursorColumn => {
                Answer::Done(Value::Number(i128::from(self.cursor.place.column)))
            }
            Property::CursorUpdate => Answer::Done(Value::Truth(self.cursor.update)),
            Property::OutputId => Answer::Done(Value::Number(i128::from(self.writer.output_id()))),
            Property::RecLineChars => Answer::Done(Value::Number(i128::from(chars_of(
                context.kind,
            )))),
            Property::CoverOpen => Answer::Done(Value::Truth(context.signs.cover_open)),
            Property::RecEmpty => Answer::Done(Value::Truth(context.signs.paper.is_empty())),
            Property::RecNearEnd => Answer::Done(Value::Truth(context.signs.paper.is_near_end())),
            Property::CapStatus | Property::CapTransactions => Answer::Done(Value::Truth(true)),
            Property::TransactionInProgress => Answer::Done(Value::Truth(context.in_transaction)),
            Property::CapSingleFile | Property::CapErrorDetection => {
                Answer::Done(Value::Truth(false))
            }
            Property::DrawerOpened => Answer::Done(Value::Truth(context.signs.drawer_open)),
            Property::TotalsSize => Answer::Done(Value::Number(context.totals_size as i128)),
            Property::FreeData => match context.files {
                Some(files) => Answer::Done(Value::Number(files.free as i128)),
                None => Answer::Refused(Code::Failure, 0),
            },
            Property::NumberOfFiles => match context.files {
                Some(files) => Answer::Done(Value::Number(files.count as i128)),
                None => Answer::Refused(Code::Failure, 0),
            },
            _ => unreachable!(),
        }
    }
}

/// Returns the answer that has these bytes.
fn done_with(bytes: Bytes) -> Answer
    ensures { result ≡ Answer.Done (Value.Bytes bytes) }
{
    Answer::Done(Value::Bytes(bytes))
}
