//! The controls of a till by their numbers.
ghost use Rattle.pos_run.specs.Names.{names_of, number_named};
ghost use Rattle.kijolvar.specs.Controls.{FindsNumber, NextEvent, WritesEvent};

use crate::codes::{DISK_FAILED, ERRANDS, EVENT, NO_CONTROL, OK};
use crate::device::Device;
use crate::till_disk::Settlement;
use crate::till_state::TillState;
use pos_run::Names;
use pos_service::Peripheral;

/// Writes the number of the control of a name, and returns OK.
///
/// # Errors
///
/// NO_CONTROL if no control has the name. Then nothing is written.
pub(crate) fn find_number(names: &Names, name: &[u8], control: &mut usize) -> u32
    ensures { FindsNumber (number_named (names_of names.now) name.now) control.old control.new result }
{
    match names.find(name) {
        Some(number) => {
            *control = number;
            OK
        }
        None => NO_CONTROL,
    }
}

/// Writes the number of a control that has an event, if there is one. Returns EVENT if it was written, otherwise OK.
fn write_event(number: Option<usize>, control: &mut usize) -> u32
    ensures { WritesEvent number control.old control.new result }
{
    match number {
        Some(number) => {
            *control = number;
            EVENT
        }
        None => OK,
    }
}

/// Writes the lowest number, `from` or above, of a control that has an event to deliver, and returns EVENT; or returns
/// OK if no such control has one. It changes nothing of the till.
///
/// # Errors
///
/// ERRANDS if errands are left, and DISK_FAILED if one failed. Then nothing is written, and neither with OK.
pub(crate) fn next_event(till_state: &TillState, from: usize, control: &mut usize) -> u32
    ensures { NextEvent ⟦<Device as Peripheral>⟧ till_state.now from control.old control.new result }
{
    match till_state.settlement() {
        Settlement::Owed => ERRANDS,
        Settlement::Failed => DISK_FAILED,
        Settlement::InMemory | Settlement::Settled => {
            write_event(till_state.counter.next_event(from), control)
        }
    }
}
