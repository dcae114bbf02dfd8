//! The work on the output that is queued for a printer.
ghost use Rattle.std.specs.Prelude.{◌≡◌, ◌<◌, true, false, Some, IsSome, MatchOption, is_some, length, slice_get, slice_set};
ghost use Rattle.std.specs.Option.{option_and_then};
ghost use Rattle.pos_service.specs.Claims.{holder_at};
ghost use Rattle.pos_service.specs.Controls.{completed, output_failed};
ghost use Rattle.pos_service.specs.Kinds.{is_printer};
ghost use Rattle.pos_service.specs.Output.{request_to_do};
ghost use Rattle.pos_service.specs.Peripherals.{Asked};
ghost use Rattle.pos_common.specs.DueRequests.{first_request};
ghost use Rattle.pos_printer.specs.PrinterCalls.{OrdersOfWork, WorksAt};
ghost use Rattle.pos_service.specs.Hardware.{hardware_of, StaysInService};
ghost use Rattle.pos_common.specs.KeptControls.{controls_of};
ghost use Rattle.pos_printer.specs.Requests.{HasRequest};

use pos_common::{Claims, Control, WORK_EVENTS, hear_all, room_all};
use pos_service::{Code, NoMemory, Peripheral, Reply, WorkResult};

/// Works on the first request of the control that holds the printer at a place (common chapter, asynchronous output).
/// It does nothing at another device, if nobody holds the printer, or if the holder is disabled. The same holds if
/// there is no request or the first has failed.
///
/// Once the printer has done the order, the request is removed. Each control that has the printer open and enabled gets
/// the StatusUpdateEvents of what has changed, then the holder an OutputCompleteEvent.
///
/// If the printer doesn't do it, the request stays the first, and the output error state begins. An ErrorEvent with
/// EL_OUTPUT then has one of these codes:
///
/// - E_FAILURE: the printer's line failed.
/// - E_OFFLINE: the printer is off.
/// - E_EXTENDED with EPTR_COVER_OPEN: the cover is open.
/// - E_EXTENDED with EPTR_REC_EMPTY: there is too little paper.
///
/// # Errors
///
/// [`NoMemory`] if there is no room for the events, or the printer ran out of memory. Then nothing has changed.
pub fn work<P: Peripheral>(
    controls: &mut [Control],
    place: usize,
    claims: &Claims,
    printer: &mut P,
) -> Result<WorkResult, NoMemory>
    requires unparked { (P.Peripheral.state printer.old).is_parked ≡ false }
    ensures worked { let state = P.Peripheral.state in
        WorksAt (holder_at claims.now (Some place)) place result
        (controls_of controls.old) (hardware_of (state printer.old))
        (controls_of controls.new) (hardware_of (state printer.new)) }
    ensures orders { let state = P.Peripheral.state in
        OrdersOfWork result (state printer.old).orders (state printer.new).orders }
    ensures in_service { let state = P.Peripheral.state in
        StaysInService (state printer.old) (state printer.new) }
{
    if !printer.kind().is_printer() {
        return Ok(WorkResult::Idle);
    }
    let Some(holder) = claims.holder(Some(place)) else {
        return Ok(WorkResult::Idle);
    };
    if !has_work(controls, holder, place) {
        return Ok(WorkResult::Idle);
    }
    room_all(controls, place, WORK_EVENTS)?;
    let old = printer.signs();
    match ask_for(&controls[holder], place, printer)? {
        Reply::Done => {
            hear_all(controls, place, old, printer.signs());
            Ok(complete(controls, holder))
        }
        said => Ok(fail(controls, holder, said.code(), said.extended())),
    }
}

/// Returns whether the control with a number has a request that is to be done now at a place.
fn has_work(controls: &[Control], holder: usize, place: usize) -> bool
    ensures work { let held = slice_get (controls_of controls.now) holder in
        result ≡ is_some (option_and_then (first_request place) held) }
    ensures within { result ≡ true → holder < length controls.now }
{
    match controls.get(holder) {
        Some(control) => control.first_request(place).is_some(),
        None => false,
    }
}

/// Gives the printer at a place the order of the request that a control has to be done now.
///
/// # Errors
///
/// `NoMemory` if memory ran out. Then nothing has changed, but the order may have been counted.
fn ask_for<P: Peripheral>(
    control: &Control,
    place: usize,
    printer: &mut P,
) -> Result<Reply, NoMemory>
    requires unparked { (P.Peripheral.state printer.old).is_parked ≡ false }
    requires printer { is_printer (P.Peripheral.state printer.old).kind ≡ true }
    requires request { IsSome (first_request place control.now.control) }
    ensures { let state = P.Peripheral.state in
        MatchOption (first_request place control.now.control) ⊥ (λ request.
        Asked (state printer.old) request.1 result (state printer.new)) }
{
    match control.first_request(place) {
        Some((_, order)) => printer.ask(order),
        None => unreachable!(),
    }
}

/// Notes that the request that the control with a number had to be done now is done.
fn complete(controls: &mut [Control], holder: usize) -> WorkResult
    requires within { holder < length controls.old }
    requires request { HasRequest holder controls.old }
    ensures { MatchOption (slice_get (controls_of controls.old) holder) ⊥ (λ control.
        MatchOption (request_to_do control.writer.output) ⊥ (λ request. (result ≡ WorkResult.Done request.0)
        × (controls_of controls.new ≡ slice_set (controls_of controls.old) holder (completed request.0 control)))) }
{
    WorkResult::Done(controls[holder].complete_request())
}

/// Notes that the request that the control with a number had to be done now has failed.
fn fail(controls: &mut [Control], holder: usize, code: Code, extended: u32) -> WorkResult
    requires within { holder < length controls.old }
    requires request { HasRequest holder controls.old }
    ensures said { result ≡ WorkResult.Failed code extended }
    ensures failed { MatchOption (slice_get (controls_of controls.old) holder) ⊥ (λ control.
        controls_of controls.new ≡ slice_set (controls_of controls.old) holder (output_failed code extended control)) }
{
    controls[holder].fail_request(code, extended);
    WorkResult::Failed(code, extended)
}
