//! What a counter is asked, and what it answers.
use crate::answer::{Answer, WorkResult};
use crate::call::Call;
use crate::category::Category;
use crate::event::{ErrorReply, Event};
use crate::faults::{AttachFault, DetachFault};
use crate::input::Input;
use crate::plant::Snapshot;
use pos_bytes::LentBytes;

/// What may be asked of a counter. Devices are named by their names.
///
/// `N` is what a new control is to be called, `C` names one that is there, and `P` is a peripheral that is to be
/// attached. At a counter they are nothing, a number and a peripheral; in a script, the names of controls and the
/// number of a spare.
#[derive(Drop)]
pub enum Request<'a, N, C, P> {
    /// Makes a new control of a category.
    NewControl(N, Category),
    /// A call of an application on its control.
    CallOf(C, Call),
    /// Makes something happen at a device.
    InputTo(LentBytes<'a>, Input),
    /// Does the first request of output that waits for a device.
    WorkOn(LentBytes<'a>),
    /// Delivers the event that may be delivered to a control, with the application's answer to an ErrorEvent.
    Deliver(C, ErrorReply),
    /// Shows what a device is physically.
    Snapshot(LentBytes<'a>),
    /// Attaches a peripheral to a device.
    Attach(LentBytes<'a>, P),
    /// Detaches the peripheral of a device.
    Detach(LentBytes<'a>),
}

/// What a counter answers to a request. `P` is a peripheral that is returned.
#[derive(Drop)]
pub enum Response<P> {
    /// The new control's number, from 0.
    Made(usize),
    /// There are as many controls as there may be.
    Full,
    /// What the call answers.
    Answered(Answer),
    /// The input has happened.
    TakenIn,
    /// No device has the name, or it has no peripheral.
    NoDevice,
    /// The device has no such input.
    WrongInput,
    /// What came of the work.
    Worked(WorkResult),
    /// The event, or none.
    Delivered(Option<Event>),
    /// What the device is physically.
    Shown(Snapshot),
    /// The peripheral serves the device.
    Attached,
    /// Why the peripheral wasn't attached, and the peripheral.
    NotAttached(AttachFault, P),
    /// The peripheral that served the device, out of service.
    Detached(P),
    /// Why the peripheral wasn't detached. The device has what it had.
    NotDetached(DetachFault),
    /// Memory ran out, and nothing has changed.
    OutOfMemory,
}
