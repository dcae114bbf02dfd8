//! Tables of steps: what happens at a simulated device, which the control with the number 0 holds. Where a step finds
//! no memory it is taken once more: a refused growth has changed nothing, so with one refused all is as with none.
ghost use Rattle.std.specs.Prelude.{◌≡◌, false, true, Some};
ghost use Rattle.pos_service.specs.Displays.{is_cursor_place};
ghost use Rattle.pos_service.specs.Kinds.{columns_of, rows_of};
ghost use Rattle.pos_service.specs.Peripherals.{input_fits};

use pos_common::{Claims, Control};
use pos_service::display_text::Place;
use pos_service::{
    Answer, Call, Category, Code, ErrorReply, Event, Input, Kind, NoMemory, OpenDevice, OpenTarget,
    PaperLevel, Peripheral, Property, Signs, Snapshot, Value, WorkResult, columns_of, rows_of,
};
use std::alloc::Global;
use std::test::Fail;

/// What happens.
#[derive(Drop)]
pub enum Step {
    /// A call on the control.
    Asked(Call),
    /// A property of the control is set.
    Set(Property, Value),
    /// An input of the device.
    Fed(Input),
    /// The control's first request is worked on.
    Worked,
}

/// What a new device shows.
pub const NEW_SIGNS: Signs = Signs {
    powered: true,
    drawer_open: false,
    cover_open: false,
    paper: PaperLevel::Good,
};

/// A control that has the device at place 0 open and enabled, delivers data, and queues output.
pub fn control(alloc: Global, category: Category) -> Control {
    let mut control = Control::new(alloc, category);
    control.open(OpenTarget::There(OpenDevice::At(0)));
    for property in [
        Property::DeviceEnabled,
        Property::DataEventEnabled,
        Property::AsyncMode,
    ] {
        let _ = control.set(0, Some(0), None, NEW_SIGNS, property, &Value::Truth(true));
    }
    control
}

/// The category whose controls open a device of this kind.
fn category_of(kind: Kind) -> Category {
    match kind {
        Kind::Drawer => Category::CashDrawer,
        Kind::Scanner => Category::Scanner,
        Kind::Display { .. } => Category::LineDisplay,
        Kind::Printer { .. } => Category::PosPrinter,
    }
}

/// What a peripheral is after these steps. It fails where one of them isn't done, or where the control delivers other
/// events than these.
pub fn played<P: Peripheral>(
    alloc: Global,
    device: &mut P,
    steps: &[Step],
    events: &[Event],
) -> Result<Snapshot, Fail> {
    played_with(alloc, device, steps, events, false)
}

/// What a peripheral is after these steps, none of which is taken once more where memory is ample.
pub fn played_with<P: Peripheral>(
    alloc: Global,
    device: &mut P,
    steps: &[Step],
    events: &[Event],
    is_ample: bool,
) -> Result<Snapshot, Fail> {
    let mut controls = [control(alloc, category_of(device.kind()))];
    if let Some(number) = first_wrong(alloc, &mut controls, device, steps, is_ample)? {
        return Err(Fail::new(format_args!("step {number} is not done")));
    }
    if !tells(&mut controls[0], events) {
        return Err(Fail::new(format_args!("the control delivers other events")));
    }
    Ok(device.snapshot()?)
}

/// The first of these steps that isn't done.
fn first_wrong<P: Peripheral>(
    alloc: Global,
    controls: &mut [Control],
    device: &mut P,
    steps: &[Step],
    is_ample: bool,
) -> Result<Option<usize>, NoMemory> {
    let mut claims = Claims::new(alloc, 1)?;
    claims.claim(Some(0), 0);
    for (number, step) in steps.iter().enumerate() {
        let is_taken = does(alloc, controls, &claims, device, step)
            || !is_ample && does(alloc, controls, &claims, device, step);
        if !is_taken {
            return Ok(Some(number));
        }
    }
    Ok(None)
}

/// Whether a step is done.
fn does<P: Peripheral>(
    alloc: Global,
    controls: &mut [Control],
    claims: &Claims,
    device: &mut P,
    step: &Step,
) -> bool {
    match step {
        _ if device.is_parked() => false,
        Step::Asked(asked) => {
            let answer = answer(alloc, controls, claims, device, asked);
            matches!(answer, Ok(Answer::Done(Value::Empty)))
        }
        Step::Set(property, value) => is_set(controls, device, *property, value),
        Step::Fed(input) if input.fits(device.kind()) => {
            feed(alloc, controls, device, input).is_ok()
        }
        Step::Worked if device.kind().is_printer() => {
            matches!(
                pos_printer::work(controls, 0, claims, device),
                Ok(WorkResult::Done(_))
            )
        }
        _ => false,
    }
}

/// Whether a property is set.
fn is_set<P: Peripheral>(
    controls: &mut [Control],
    device: &P,
    property: Property,
    value: &Value,
) -> bool {
    match controls.first_mut() {
        Some(control) => {
            let (kind, signs) = (Some(device.kind()), device.signs());
            let answer = control.set(0, Some(0), kind, signs, property, value);
            matches!(answer, Ok(Answer::Done(_)))
        }
        None => false,
    }
}

/// What a call is answered, by the crate of the device's category.
fn answer<P: Peripheral>(
    alloc: Global,
    controls: &mut [Control],
    claims: &Claims,
    device: &mut P,
    asked: &Call,
) -> Result<Answer, NoMemory>
    requires { (P.Peripheral.state device.old).is_parked ≡ false }
{
    let kind = device.kind();
    if controls.is_empty() {
        return Ok(Answer::Refused(Code::Illegal, 0));
    }
    match kind {
        Kind::Drawer => pos_drawer::call(controls, 0, claims, device, asked),
        Kind::Scanner => pos_scanner::call(controls, 0, claims, device, asked),
        Kind::Display { .. } if is_cursor_place(kind, controls[0].cursor().place) => {
            pos_display::call(alloc, controls, 0, claims, device, asked)
        }
        Kind::Printer { .. } => pos_printer::call(alloc, controls, 0, claims, device, asked),
        _ => Ok(Answer::Refused(Code::Illegal, 0)),
    }
}

/// Hands in an input that fits the device, by the crate of the device's category.
fn feed<P: Peripheral>(
    alloc: Global,
    controls: &mut [Control],
    device: &mut P,
    input: &Input,
) -> Result<(), NoMemory>
    requires unparked { (P.Peripheral.state device.old).is_parked ≡ false }
    requires fits { input_fits (P.Peripheral.state device.old).kind input.now ≡ true }
{
    match device.kind() {
        Kind::Drawer => pos_drawer::input(alloc, controls, 0, device, input),
        Kind::Scanner => pos_scanner::input(alloc, controls, 0, device, input),
        Kind::Display { .. } => pos_display::input(alloc, controls, 0, device, input),
        Kind::Printer { .. } => pos_printer::input(alloc, controls, 0, device, input),
    }
}

/// Whether a cursor may be at a place of a display of this kind.
fn is_cursor_place(kind: Kind, place: Place) -> bool
    ensures { result ≡ is_cursor_place (rows_of (Some kind)) (columns_of (Some kind)) place }
{
    place.row < rows_of(Some(kind)) && place.column <= columns_of(Some(kind))
}

/// Whether the control delivers these events, and then none.
pub fn tells(control: &mut Control, events: &[Event]) -> bool {
    for event in events {
        if control.deliver(ErrorReply::Default) != Some(*event) {
            return false;
        }
    }
    control.deliver(ErrorReply::Default).is_none()
}
