//! The calls of a control on its line display.
ghost use Rattle.std.specs.Prelude.{◌≡◌, ◌<◌, ◌≤◌, false, true, Some, Ok, MatchOption, length, slice_get};
ghost use Rattle.std.specs.Option.{option_map};
ghost use Rattle.pos_service.specs.declared.category.Category.TheVariants as category;
ghost use Rattle.pos_service.specs.Calls.{has_call};
ghost use Rattle.pos_service.specs.Actions.{ActionFits, Plans};
ghost use Rattle.pos_display.specs.DisplayCalls.{DisplayCall, DisplayOrders, display_action, display_rows, left_by, scroll_rows, scrolls, shows, text_rows};
ghost use Rattle.pos_service.specs.Displays.{attribute_of, direction_of, is_cursor_place};
ghost use Rattle.pos_service.specs.Kinds.{is_display, rows_of, columns_of};
ghost use Rattle.pos_service.specs.Hardware.{StaysInService, hardware_of};
ghost use Rattle.pos_common.specs.KeptControls.{controls_of};

use pos_common::{Claims, Control, execute};
use pos_service::display_text::{
    Attribute, Cursor, Direction, ORIGIN, Place, is_text_of_display, place_after,
};
use pos_service::numbers::{to_count, to_index};
use pos_service::{
    Action, Answer, Bytes, Call, Category, Code, ControlUpdate, Kind, NoMemory, Order, Peripheral,
    columns_of, rows_of,
};
use std::alloc::Global;

/// Does a call of the control with a number on its display (chapter Line Display). Each call gives one order, and the
/// cursor moves only once that is done:
///
/// - `displayText` shows a text from the cursor on. It leaves the cursor at the text's end if CursorUpdate is true.
/// - `displayTextAt` does the same from a row and a column on.
/// - `clearText` blanks the display, and leaves the cursor at the first place.
/// - `scrollText` moves what is shown, and keeps the cursor.
///
/// # Errors
///
/// [`NoMemory`] if there is none for a copy of the text or for the events, or the display ran out of it. Then nothing
/// has changed. Refused in this order:
///
/// - E_CLOSED: the control is closed.
/// - E_ILLEGAL: displays don't have the call.
/// - E_CLAIMED: another control holds the display.
/// - E_NOTCLAIMED: nobody holds it.
/// - E_DISABLED: the control is disabled.
/// - E_ILLEGAL: an argument is out of range.
/// - E_FAILURE: the display's line failed.
/// - E_OFFLINE: the display is off.
pub fn call<P: Peripheral>(
    alloc: Global,
    controls: &mut [Control],
    caller: usize,
    claims: &Claims,
    display: &mut P,
    call: &Call,
) -> Result<Answer, NoMemory>
    requires caller { caller < length controls.old }
    requires unparked { (P.Peripheral.state display.old).is_parked ≡ false }
    requires display { is_display (P.Peripheral.state display.old).kind ≡ true }
    requires cursor { let kind = Some (P.Peripheral.state display.old).kind in
        MatchOption (slice_get (controls_of controls.old) caller) ⊥ (λ control.
        is_cursor_place (rows_of kind) (columns_of kind) control.cursor.place ≡ true) }
    ensures called { let state = P.Peripheral.state in DisplayCall caller claims.now call.now result
        (controls_of controls.old) (hardware_of (state display.old))
        (controls_of controls.new) (hardware_of (state display.new)) }
    ensures orders { let state = P.Peripheral.state in
        DisplayOrders (state display.old).kind caller claims.now call.now result
        (controls_of controls.old) (state display.old).orders (state display.new).orders }
    ensures in_service { let state = P.Peripheral.state in
        StaysInService (state display.old) (state display.new) }
{
    let control = &controls[caller];
    let place = match control.check_call(caller, claims, Category::LineDisplay, call) {
        Ok(place) => place,
        Err(code) => return Ok(Answer::Refused(code, 0)),
    };
    match plan(alloc, display.kind(), control.cursor(), call)? {
        Ok(action) => execute(controls, caller, place, display, action),
        Err(code) => Ok(Answer::Refused(code, 0)),
    }
}

/// Returns what a call that displays have comes to, at a display of this kind, for a control with this cursor. Its
/// text, if any, is copied once its arguments are checked.
///
/// # Errors
///
/// `NoMemory` if there is none for that copy, and within, E_ILLEGAL if an argument is out of range.
fn plan(
    alloc: Global,
    kind: Kind,
    cursor: Cursor,
    call: &Call,
) -> Result<Result<Action, Code>, NoMemory>
    requires display { is_display kind ≡ true }
    requires rows { 1 ≤ rows_of (Some kind) }
    requires columns { 1 ≤ columns_of (Some kind) }
    requires cursor { is_cursor_place (rows_of (Some kind)) (columns_of (Some kind)) cursor.place ≡ true }
    requires own { has_call category.LineDisplay call.now ≡ true }
    ensures { Plans (display_rows (Some kind) call.now) (display_action (Some kind) cursor call.now) (ActionFits kind)
        call.now result }
{
    match call {
        Call::DisplayText(text, attribute) => {
            plan_text(alloc, kind, cursor, cursor.place, text, *attribute)
        }
        Call::DisplayTextAt(row, column, text, attribute) => {
            let Some(row) = to_index(*row, rows_of(Some(kind))) else {
                return Ok(Err(Code::Illegal));
            };
            let Some(column) = to_count(*column, columns_of(Some(kind))) else {
                return Ok(Err(Code::Illegal));
            };
            plan_text(alloc, kind, cursor, Place { row, column }, text, *attribute)
        }
        Call::ClearText => Ok(Ok(Action::Gives(Order::ClearText, ControlUpdate::Cursor(ORIGIN)))),
        Call::ScrollText(direction, units) => Ok(plan_scroll(kind, *direction, *units)),
        _ => unreachable!(),
    }
}

/// Returns the order to show a text, with the number of its attribute, from a place on.
///
/// # Errors
///
/// `NoMemory` if there is none for a copy of the text, and within, E_ILLEGAL if the text or the attribute is out of
/// range.
fn plan_text(
    alloc: Global,
    kind: Kind,
    cursor: Cursor,
    start: Place,
    text: &Bytes,
    attribute: i128,
) -> Result<Result<Action, Code>, NoMemory>
    requires display { is_display kind ≡ true }
    requires columns { 1 ≤ columns_of (Some kind) }
    requires start { is_cursor_place (rows_of (Some kind)) (columns_of (Some kind)) start ≡ true }
    ensures { Plans (text_rows text.now attribute)
        (option_map (shows (Some kind) cursor start text.now) (attribute_of attribute)) (ActionFits kind)
        (Call.DisplayText text.now attribute) result }
{
    if !is_text_of_display(text.as_slice()) {
        return Ok(Err(Code::Illegal));
    }
    let Some(attribute) = Attribute::from_number(attribute) else {
        return Ok(Err(Code::Illegal));
    };
    let bytes = Bytes::from_slice(alloc, text.as_slice())?;
    let place = left_by(kind, cursor, start, text.as_slice());
    let order = Order::ShowText {
        row: start.row,
        column: start.column,
        attribute,
        bytes,
    };
    Ok(Ok(Action::Gives(order, ControlUpdate::Cursor(place))))
}

/// Returns where a text from a place on leaves the cursor.
fn left_by(kind: Kind, cursor: Cursor, start: Place, bytes: &[u8]) -> Place
    requires columns { 1 ≤ columns_of (Some kind) }
    requires start { is_cursor_place (rows_of (Some kind)) (columns_of (Some kind)) start ≡ true }
    ensures { result ≡ left_by (Some kind) cursor start bytes.now }
{
    if !cursor.update {
        return start;
    }
    place_after(rows_of(Some(kind)), columns_of(Some(kind)), start, bytes)
}

/// Returns the order to move what is shown by this many rows or columns, in the direction of a number.
///
/// # Errors
///
/// E_ILLEGAL if the direction is unknown, or the units are more than the rows or columns.
fn plan_scroll(kind: Kind, direction: i128, units: i128) -> Result<Action, Code>
    requires display { is_display kind ≡ true }
    ensures { Plans (scroll_rows (Some kind) direction units) (option_map (scrolls units) (direction_of direction))
        (ActionFits kind) (Call.ScrollText direction units) (Ok result) }
{
    let Some(direction) = Direction::from_number(direction) else {
        return Err(Code::Illegal);
    };
    let most = direction.most_units(rows_of(Some(kind)), columns_of(Some(kind)));
    let Some(units) = to_count(units, most) else {
        return Err(Code::Illegal);
    };
    Ok(Action::Gives(Order::Scroll { direction, units }, ControlUpdate::Nothing))
}
