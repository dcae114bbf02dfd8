//! The calls of a control on its scanner.
ghost use Rattle.std.specs.Prelude.{◌≡◌, ◌<◌, false, true, Some, length};
ghost use Rattle.pos_service.specs.declared.category.Category.TheVariants as category;
ghost use Rattle.pos_service.specs.declared.kind.Kind.{Kind};
ghost use Rattle.pos_service.specs.Calls.{has_call};
ghost use Rattle.pos_service.specs.Actions.{ActionFits, MayWantFor};
ghost use Rattle.pos_service.specs.Hardware.{StaysInService, hardware_of};
ghost use Rattle.pos_common.specs.KeptControls.{controls_of};
ghost use Rattle.pos_scanner.specs.ScannerCalls.{ScannerCall, ScannerOrders, scanner_action};

use pos_common::{Claims, Control, execute};
use pos_service::{Action, Answer, Call, Category, ControlUpdate, NoMemory, Peripheral};

/// Does a call of the control with a number on its scanner, which gives no order and takes no memory (common chapter,
/// chapter Scanner):
///
/// - `clearInput` deletes the caller's DataEvents and ErrorEvents of input, and ends its input error state.
/// - `clearInputProperties` gives its ScanData, ScanDataLabel and ScanDataType their defaults.
///
/// # Errors
///
/// Never [`NoMemory`]. Refused in this order:
///
/// - E_CLOSED: the control is closed.
/// - E_ILLEGAL: scanners don't have the call.
/// - E_CLAIMED: another control holds the scanner.
/// - E_NOTCLAIMED: nobody holds it.
pub fn call<P: Peripheral>(
    controls: &mut [Control],
    caller: usize,
    claims: &Claims,
    scanner: &mut P,
    call: &Call,
) -> Result<Answer, NoMemory>
    requires caller { caller < length controls.old }
    requires unparked { (P.Peripheral.state scanner.old).is_parked ≡ false }
    ensures called { let state = P.Peripheral.state in ScannerCall caller claims.now call.now result
        (controls_of controls.old) (hardware_of (state scanner.old))
        (controls_of controls.new) (hardware_of (state scanner.new)) }
    ensures orders { let state = P.Peripheral.state in ScannerOrders caller claims.now call.now result
        (controls_of controls.old) (state scanner.old).orders (state scanner.new).orders }
    ensures in_service { let state = P.Peripheral.state in
        StaysInService (state scanner.old) (state scanner.new) }
{
    match controls[caller].check_call(caller, claims, Category::Scanner, call) {
        Ok(place) => execute(controls, caller, place, scanner, plan(call)),
        Err(code) => Ok(Answer::Refused(code, 0)),
    }
}

/// Returns what a call that scanners have comes to, which is never an order.
fn plan(call: &Call) -> Action
    requires { has_call category.Scanner call.now ≡ true }
    ensures action { scanner_action call.now ≡ Some result }
    ensures fits { (is : Kind) → ActionFits is result }
    ensures wants { MayWantFor call.now result }
{
    match call {
        Call::ClearInput => Action::Changes(ControlUpdate::Input),
        Call::ClearInputProperties => Action::Changes(ControlUpdate::InputProperties),
        _ => unreachable!(),
    }
}
