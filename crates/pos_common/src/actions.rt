//! What a call that nothing refuses does at a device with a peripheral.
ghost use Rattle.std.specs.Prelude.{IsTrue, MatchResult, false, length, true, ◌<◌, ◌≡◌};
ghost use Rattle.pos_service.specs.Actions.{ActionFits, ChangesOne, Does, GivesOne, GivesOrder, Ordered, OrdersBy};
ghost use Rattle.pos_service.specs.Actions.{QueuesOrder, changed, may_want};
ghost use Rattle.pos_service.specs.Peripherals.{PrintersTake, order_fits};
ghost use Rattle.pos_service.specs.Hardware.{Hardware, NothingChanges, StaysInService, hardware_of};
ghost use Rattle.pos_common.specs.KeptControls.{controls_of};

use crate::control::{Control, SIGN_EVENTS};
use crate::controls::{hear_all, room_all};
use pos_service::{Action, Answer, ControlUpdate, NoMemory, Order, Peripheral, Reply, Value};

/// Does what a call comes to, which the control with a number makes at the device at a place. The peripheral gets at
/// most one order.
///
/// # Errors
///
/// [`NoMemory`] if memory ran out. Then nothing has changed, but the order may have been counted. Refused with what the
/// peripheral replies to an order:
///
/// - E_FAILURE: its line failed.
/// - E_OFFLINE: it is off.
/// - E_EXTENDED: its cover is open, or it has too little paper.
///
/// Refused with E_FAILURE also if an order is to be queued, and no OutputID is left.
pub fn execute<P: Peripheral>(
    controls: &mut [Control],
    number: usize,
    place: usize,
    peripheral: &mut P,
    action: Action,
) -> Result<Answer, NoMemory>
    requires within { number < length controls.old }
    requires unparked { (P.Peripheral.state peripheral.old).is_parked ≡ false }
    requires fits { ActionFits (P.Peripheral.state peripheral.old).kind action }
    ensures done { let state = P.Peripheral.state in MatchResult result
        (λ answer. Does action number place answer (controls_of controls.old) (hardware_of (state peripheral.old))
        (controls_of controls.new) (hardware_of (state peripheral.new)))
        (λ _. IsTrue (may_want action) × NothingChanges (controls_of controls.old) (hardware_of (state peripheral.old))
        (controls_of controls.new) (hardware_of (state peripheral.new))) }
    ensures orders { let state = P.Peripheral.state in
        OrdersBy action result (state peripheral.old).orders (state peripheral.new).orders }
    ensures in_service { let state = P.Peripheral.state in
        StaysInService (state peripheral.old) (state peripheral.new) }
{
    match action {
        Action::Gives(order, change) => give(controls, number, place, peripheral, &order, change),
        Action::Changes(change) => {
            change_one(controls, number, change);
            Ok(Answer::Done(Value::Empty))
        }
        Action::Queues(order) => queue(controls, number, order),
    }
}

/// Changes the control with a number.
fn change_one(controls: &mut [Control], number: usize, change: ControlUpdate)
    requires { number < length controls.old }
    ensures { ChangesOne (changed change) number (controls_of controls.old) (controls_of controls.new) }
{
    controls[number].change(change);
}

/// Queues an order of the control with a number.
///
/// # Errors
///
/// [`NoMemory`] if memory ran out. Refused with E_FAILURE if no OutputID is left. Then nothing has changed.
fn queue(controls: &mut [Control], number: usize, order: Order) -> Result<Answer, NoMemory>
    requires within { number < length controls.old }
    requires fits { PrintersTake order }
    ensures { (at : Hardware) → MatchResult result
        (λ answer. QueuesOrder order number answer (controls_of controls.old) at (controls_of controls.new) at)
        (λ _. NothingChanges (controls_of controls.old) at (controls_of controls.new) at) }
{
    controls[number].queue(order)
}

/// Gives the peripheral at a place an order of the control with a number, which changes once the order is done.
///
/// # Errors
///
/// [`NoMemory`] if memory ran out. Then nothing has changed, but the order may have been counted. Refused with what the
/// peripheral replies.
fn give<P: Peripheral>(
    controls: &mut [Control],
    number: usize,
    place: usize,
    peripheral: &mut P,
    order: &Order,
    change: ControlUpdate,
) -> Result<Answer, NoMemory>
    requires within { number < length controls.old }
    requires unparked { (P.Peripheral.state peripheral.old).is_parked ≡ false }
    requires fits { order_fits (P.Peripheral.state peripheral.old).kind order.now ≡ true }
    ensures done { let state = P.Peripheral.state in MatchResult result
        (λ answer. GivesOrder order.now change number place answer
        (controls_of controls.old) (hardware_of (state peripheral.old))
        (controls_of controls.new) (hardware_of (state peripheral.new)))
        (λ _. NothingChanges (controls_of controls.old) (hardware_of (state peripheral.old))
        (controls_of controls.new) (hardware_of (state peripheral.new))) }
    ensures orders { let state = P.Peripheral.state in
        GivesOne result (state peripheral.old).orders (state peripheral.new).orders }
    ensures in_service { let state = P.Peripheral.state in
        StaysInService (state peripheral.old) (state peripheral.new) }
{
    match ask(controls, place, peripheral, order)? {
        Reply::Done => {
            change_one(controls, number, change);
            Ok(Answer::Done(Value::Empty))
        }
        said => Ok(Answer::Refused(said.code(), said.extended())),
    }
}

/// Gives the peripheral at a place an order, once there is room for its events, and returns the reply. Each control
/// that has the device open and enabled then gets the StatusUpdateEvents of what has changed.
///
/// # Errors
///
/// [`NoMemory`] if memory ran out. Then nothing has changed, but the order may have been counted.
fn ask<P: Peripheral>(
    controls: &mut [Control],
    place: usize,
    peripheral: &mut P,
    order: &Order,
) -> Result<Reply, NoMemory>
    requires unparked { (P.Peripheral.state peripheral.old).is_parked ≡ false }
    requires fits { order_fits (P.Peripheral.state peripheral.old).kind order.now ≡ true }
    ensures asked { let state = P.Peripheral.state in MatchResult result
        (λ said. Ordered order.now place said (controls_of controls.old) (hardware_of (state peripheral.old))
        (controls_of controls.new) (hardware_of (state peripheral.new)))
        (λ _. NothingChanges (controls_of controls.old) (hardware_of (state peripheral.old))
        (controls_of controls.new) (hardware_of (state peripheral.new))) }
    ensures places { length controls.new ≡ length controls.old }
    ensures orders { let state = P.Peripheral.state in
        GivesOne result (state peripheral.old).orders (state peripheral.new).orders }
    ensures in_service { let state = P.Peripheral.state in
        StaysInService (state peripheral.old) (state peripheral.new) }
{
    room_all(controls, place, SIGN_EVENTS)?;
    let old = peripheral.signs();
    match peripheral.ask(order)? {
        Reply::Done => {
            hear_all(controls, place, old, peripheral.signs());
            Ok(Reply::Done)
        }
        said => Ok(said),
    }
}
