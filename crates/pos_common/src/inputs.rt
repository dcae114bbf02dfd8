//! What happens at a device from outside.
ghost use Rattle.std.specs.Prelude.{◌≡◌, false, true, All, OnOk, IfOk};
ghost use Rattle.pos_service.specs.Peripherals.{input_fits};
ghost use Rattle.pos_service.specs.Hardware.{StaysInService, TakenAt, hardware_of};
ghost use Rattle.pos_common.specs.KeptControls.{HasCopies, HasRoom, controls_of, input_events};

use crate::control::{Control, INPUT_EVENTS};
use crate::controls::{ScanCopy, copy_for_all, fail_all, hear_all, read_all, room_all};
use pos_service::{Input, NoMemory, Peripheral, Taken};
use std::alloc::Global;

/// Passes an input that fits on to the peripheral of the device at a place. Each control that has the device open and
/// enabled gets the events of it (common chapter, data events, error handling and device power reporting):
///
/// - the StatusUpdateEvents of the signs that have changed,
/// - for a scan, a copy of it (see `Control::read`),
/// - for a failed scan, ErrorEvents (see `Control::fail_input`).
///
/// All copies, and the room for all events, are made before the peripheral takes the input.
///
/// # Errors
///
/// [`NoMemory`] if memory ran out. Then nothing has changed.
pub fn take_input<P: Peripheral>(
    alloc: Global,
    controls: &mut [Control],
    place: usize,
    peripheral: &mut P,
    input: &Input,
) -> Result<(), NoMemory>
    requires unparked { (P.Peripheral.state peripheral.old).is_parked ≡ false }
    requires fits { input_fits (P.Peripheral.state peripheral.old).kind input.now ≡ true }
    ensures taken { let state = P.Peripheral.state in
        TakenAt input.now place result (controls_of controls.old) (hardware_of (state peripheral.old))
        (controls_of controls.new) (hardware_of (state peripheral.new)) }
    ensures orders { let state = P.Peripheral.state in (state peripheral.new).orders ≡ (state peripheral.old).orders }
    ensures in_service { let state = P.Peripheral.state in
        StaysInService (state peripheral.old) (state peripheral.new) }
{
    let copies = prepare_all(alloc, controls, place, input)?;
    let old = peripheral.signs();
    match peripheral.feed(input)? {
        Taken::Quiet => hear_all(controls, place, old, peripheral.signs()),
        Taken::Scan => read_all(controls, copies),
        Taken::Fault => fail_all(controls, place),
    }
    Ok(())
}

/// Makes room for the events of an input in each control that has the device at a place open and enabled. For a scan it
/// also returns a copy for each of these controls.
///
/// # Errors
///
/// [`NoMemory`] if memory ran out. Then nothing but that room has changed.
fn prepare_all(
    alloc: Global,
    controls: &mut [Control],
    place: usize,
    input: &Input,
) -> Result<Vec<ScanCopy>, NoMemory>
    ensures room { OnOk result (All (HasRoom place input_events) controls.new) }
    ensures copies { IfOk result (λ copies. HasCopies input.now place (controls_of controls.new) copies.items) }
    ensures same { controls_of controls.new ≡ controls_of controls.old }
{
    if let Input::Scan { kind, bytes, label } = input {
        return copy_for_all(alloc, controls, place, *kind, bytes, label);
    }
    room_all(controls, place, INPUT_EVENTS)?;
    Ok(Vec::new(alloc))
}
