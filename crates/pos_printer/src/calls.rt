//! The calls of a control on its receipt printer.
ghost use Rattle.std.specs.Prelude.{◌≡◌, ◌<◌, false, true, Ok, Some, length};
ghost use Rattle.pos_service.specs.declared.category.Category.TheVariants as category;
ghost use Rattle.pos_service.specs.Calls.{has_call};
ghost use Rattle.pos_service.specs.Actions.{Plans, PrintersDo};
ghost use Rattle.pos_service.specs.Kinds.{is_printer};
ghost use Rattle.pos_service.specs.Peripherals.{PrintersTake};
ghost use Rattle.pos_service.specs.Hardware.{StaysInService, hardware_of};
ghost use Rattle.pos_common.specs.KeptControls.{controls_of};
ghost use Rattle.pos_printer.specs.PrinterCalls.{PrinterCall, PrinterOrders, immediately, is_busy, is_receipt, printer_action, printer_rows, request_of, text_rows};

use pos_common::{Claims, Control, execute};
use pos_service::numbers::{to_count, to_natural};
use pos_service::receipt_text::is_printable;
use pos_service::{
    Action, Answer, Bytes, Call, Category, Code, ControlUpdate, NoMemory, Order, Peripheral,
};
use std::alloc::Global;

/// Does a call of the control with a number on its printer (chapter POS Printer):
///
/// - `printNormal` and `cutPaper` are done at once, or queued if AsyncMode is true.
/// - `printImmediate` is done at once in every state, before all that is queued, even if the first request has failed.
/// - `clearOutput` deletes what is queued.
///
/// # Errors
///
/// [`NoMemory`] if there is none for a copy of the text, for the queue or for the events, or the printer ran out of it.
/// Then nothing has changed. Refused in this order:
///
/// - E_CLOSED: the control is closed.
/// - E_ILLEGAL: printers don't have the call.
/// - E_CLAIMED: another control holds the printer.
/// - E_NOTCLAIMED: nobody holds it.
/// - E_DISABLED: the control is disabled.
/// - E_ILLEGAL: the station isn't the receipt's, printers don't take the text, or the percentage isn't 0 to 100.
/// - E_BUSY: the request is synchronous, isn't `printImmediate`, and others are queued.
/// - E_FAILURE: no OutputID is left for a request to be queued, or the printer's line failed.
/// - E_OFFLINE: the printer is off.
/// - E_EXTENDED: the cover is open, or there is too little paper.
pub fn call<P: Peripheral>(
    alloc: Global,
    controls: &mut [Control],
    caller: usize,
    claims: &Claims,
    printer: &mut P,
    call: &Call,
) -> Result<Answer, NoMemory>
    requires caller { caller < length controls.old }
    requires unparked { (P.Peripheral.state printer.old).is_parked ≡ false }
    requires printer { is_printer (P.Peripheral.state printer.old).kind ≡ true }
    ensures called { let state = P.Peripheral.state in PrinterCall caller claims.now call.now result
        (controls_of controls.old) (hardware_of (state printer.old))
        (controls_of controls.new) (hardware_of (state printer.new)) }
    ensures orders { let state = P.Peripheral.state in PrinterOrders caller claims.now call.now result
        (controls_of controls.old) (state printer.old).orders (state printer.new).orders }
    ensures in_service { let state = P.Peripheral.state in
        StaysInService (state printer.old) (state printer.new) }
{
    let control = &controls[caller];
    let place = match control.check_call(caller, claims, Category::PosPrinter, call) {
        Ok(place) => place,
        Err(code) => return Ok(Answer::Refused(code, 0)),
    };
    match plan(alloc, control, call)? {
        Ok(action) => execute(controls, caller, place, printer, action),
        Err(code) => Ok(Answer::Refused(code, 0)),
    }
}

/// Returns what a call that printers have comes to, for its control. Its text, if any, is copied once its arguments are
/// checked.
///
/// # Errors
///
/// `NoMemory` if there is none for that copy, and within:
///
/// - E_ILLEGAL: the station isn't the receipt's, printers don't take the text, or the percentage isn't 0 to 100.
/// - E_BUSY: the request is synchronous, isn't `printImmediate`, and others are queued.
fn plan(alloc: Global, control: &Control, call: &Call) -> Result<Result<Action, Code>, NoMemory>
    requires { has_call category.PosPrinter call.now ≡ true }
    ensures { Plans (printer_rows control.now.control call.now) (printer_action control.now.control call.now) PrintersDo
        call.now result }
{
    match call {
        Call::PrintNormal(station, text) => print_normal(alloc, control, *station, text),
        Call::PrintImmediate(station, text) => print_immediate(alloc, *station, text),
        Call::CutPaper(percentage) => Ok(cut_paper(control, *percentage)),
        Call::ClearOutput => Ok(Ok(Action::Changes(ControlUpdate::Output))),
        _ => unreachable!(),
    }
}

/// Returns what `printNormal` comes to, with the number of a station and the text.
///
/// # Errors
///
/// As of `plan`.
fn print_normal(
    alloc: Global,
    control: &Control,
    station: i128,
    text: &Bytes,
) -> Result<Result<Action, Code>, NoMemory>
    ensures { let asked = Call.PrintNormal station text.now in
        Plans (printer_rows control.now.control asked) (printer_action control.now.control asked) PrintersDo
        asked result }
{
    if !is_receipt(station) || !is_printable(text.as_slice()) {
        return Ok(Err(Code::Illegal));
    }
    if is_busy(control) {
        return Ok(Err(Code::Busy));
    }
    let bytes = Bytes::from_slice(alloc, text.as_slice())?;
    Ok(Ok(request(control, Order::Print { bytes })))
}

/// Returns what `printImmediate` comes to, with the number of a station and the text.
///
/// # Errors
///
/// As of `plan`, without E_BUSY.
fn print_immediate(
    alloc: Global,
    station: i128,
    text: &Bytes,
) -> Result<Result<Action, Code>, NoMemory>
    ensures { let asked = Call.PrintImmediate station text.now in
        Plans (text_rows station text.now) (Some (immediately text.now)) PrintersDo asked result }
{
    if !is_receipt(station) || !is_printable(text.as_slice()) {
        return Ok(Err(Code::Illegal));
    }
    let bytes = Bytes::from_slice(alloc, text.as_slice())?;
    Ok(Ok(Action::Gives(Order::Print { bytes }, ControlUpdate::Nothing)))
}

/// Returns what `cutPaper` comes to, with 0 to 100 percent.
///
/// # Errors
///
/// E_ILLEGAL if the percentage is another one, and E_BUSY if it is synchronous and requests are queued.
fn cut_paper(control: &Control, percentage: i128) -> Result<Action, Code>
    ensures { let asked = Call.CutPaper percentage in
        Plans (printer_rows control.now.control asked) (printer_action control.now.control asked) PrintersDo asked
        (Ok result) }
{
    let Some(percentage) = to_count(percentage, 100) else {
        return Err(Code::Illegal);
    };
    if is_busy(control) {
        return Err(Code::Busy);
    }
    let order = Order::Cut {
        percentage: percentage as u8,
    };
    Ok(request(control, order))
}

/// Returns what a request comes to: it is queued if AsyncMode is true, otherwise done at once.
fn request(control: &Control, order: Order) -> Action
    requires { PrintersTake order }
    ensures action { result ≡ request_of control.now.control order }
    ensures fits { PrintersDo result }
{
    if control.is_async() {
        return Action::Queues(order);
    }
    Action::Gives(order, ControlUpdate::Nothing)
}

/// Returns whether a station is the receipt's: PTR_S_RECEIPT, 2.
fn is_receipt(station: i128) -> bool
    ensures { result ≡ is_receipt station }
{
    match to_natural(station) {
        Some(number) => number == 2,
        None => false,
    }
}

/// Returns whether a synchronous request has to be refused, because others are queued.
fn is_busy(control: &Control) -> bool
    ensures { result ≡ is_busy control.now.control }
{
    !control.is_async() && control.has_output()
}
