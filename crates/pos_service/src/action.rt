//! What a call comes to.
use crate::display_text::Place;
use crate::order::Order;

/// What a call changes of its control, once it is done.
#[derive(Clone, Copy, PartialEq, Eq)]
pub enum ControlUpdate {
    /// Nothing.
    Nothing,
    /// CursorRow and CursorColumn are at another place (chapter Line Display).
    Cursor(Place),
    /// The input that is held is deleted: `clearInput` (chapter Scanner).
    Input,
    /// The properties of the last input have their defaults: `clearInputProperties` (chapter Scanner).
    InputProperties,
    /// The output that is queued is deleted: `clearOutput` (chapter POS Printer).
    Output,
}

/// What a call comes to that nothing refuses, at a device with a peripheral.
#[derive(Drop)]
pub enum Action {
    /// The peripheral gets an order, and once that is done the control changes.
    Gives(Order, ControlUpdate),
    /// The control changes, and the peripheral isn't asked.
    Changes(ControlUpdate),
    /// An order is queued for the peripheral.
    Queues(Order),
}
