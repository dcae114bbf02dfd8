//! The calls of a control on its cash drawer.
ghost use Rattle.std.specs.Prelude.{◌≡◌, ◌<◌, false, true, Some, length};
ghost use Rattle.pos_service.specs.declared.category.Category.TheVariants as category;
ghost use Rattle.pos_service.specs.declared.kind.Kind.{Kind};
ghost use Rattle.pos_service.specs.Calls.{has_call};
ghost use Rattle.pos_service.specs.Actions.{ActionFits, MayWantFor};
ghost use Rattle.pos_service.specs.Kinds.{is_drawer};
ghost use Rattle.pos_service.specs.Hardware.{StaysInService, hardware_of};
ghost use Rattle.pos_common.specs.KeptControls.{controls_of};
ghost use Rattle.pos_drawer.specs.DrawerCalls.{DrawerCall, DrawerOrders, drawer_action};

use pos_common::{Claims, Control, execute};
use pos_service::{Action, Answer, Call, Category, ControlUpdate, NoMemory, Order, Peripheral};

/// Does a call of the control with a number on its drawer: `openDrawer` opens it (chapter Cash Drawer). Each control
/// that has the drawer open and enabled gets a StatusUpdateEvent if the drawer was closed before.
///
/// # Errors
///
/// [`NoMemory`] if there is no room for the events, or the drawer ran out of memory. Then nothing has changed. Refused
/// in this order:
///
/// - E_CLOSED: the control is closed.
/// - E_ILLEGAL: drawers don't have the call.
/// - E_CLAIMED: another control holds the drawer.
/// - E_DISABLED: the control is disabled.
/// - E_FAILURE: the drawer's line failed.
/// - E_OFFLINE: the drawer is off.
pub fn call<P: Peripheral>(
    controls: &mut [Control],
    caller: usize,
    claims: &Claims,
    drawer: &mut P,
    call: &Call,
) -> Result<Answer, NoMemory>
    requires caller { caller < length controls.old }
    requires unparked { (P.Peripheral.state drawer.old).is_parked ≡ false }
    requires drawer { is_drawer (P.Peripheral.state drawer.old).kind ≡ true }
    ensures called { let state = P.Peripheral.state in DrawerCall caller claims.now call.now result
        (controls_of controls.old) (hardware_of (state drawer.old))
        (controls_of controls.new) (hardware_of (state drawer.new)) }
    ensures orders { let state = P.Peripheral.state in DrawerOrders caller claims.now call.now result
        (controls_of controls.old) (state drawer.old).orders (state drawer.new).orders }
    ensures in_service { let state = P.Peripheral.state in
        StaysInService (state drawer.old) (state drawer.new) }
{
    match controls[caller].check_call(caller, claims, Category::CashDrawer, call) {
        Ok(place) => execute(controls, caller, place, drawer, plan(call)),
        Err(code) => Ok(Answer::Refused(code, 0)),
    }
}

/// Returns what a call that drawers have comes to.
fn plan(call: &Call) -> Action
    requires { has_call category.CashDrawer call.now ≡ true }
    ensures action { drawer_action call.now ≡ Some result }
    ensures fits { (is : Kind) → is_drawer is ≡ true → ActionFits is result }
    ensures wants { MayWantFor call.now result }
{
    match call {
        Call::OpenDrawer => Action::Gives(Order::OpenDrawer, ControlUpdate::Nothing),
        _ => unreachable!(),
    }
}
