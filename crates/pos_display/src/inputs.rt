//! What happens at a line display from outside.
ghost use Rattle.std.specs.Prelude.{◌≡◌, false, true};
ghost use Rattle.pos_service.specs.Hardware.{StaysInService, TakenAt, hardware_of};
ghost use Rattle.pos_service.specs.Kinds.{is_display};
ghost use Rattle.pos_service.specs.Peripherals.{input_fits};
ghost use Rattle.pos_common.specs.KeptControls.{controls_of};

use pos_common::{Control, take_input};
use pos_service::{Input, NoMemory, Peripheral};
use std::alloc::Global;

/// Passes an input on to the display of the device at a place: it is switched on or off. Each control that has the
/// device open and enabled, and is notified of its power, gets a StatusUpdateEvent (common chapter, device power
/// reporting).
///
/// # Errors
///
/// [`NoMemory`] if memory ran out. Then nothing has changed.
pub fn input<P: Peripheral>(
    alloc: Global,
    controls: &mut [Control],
    place: usize,
    display: &mut P,
    input: &Input,
) -> Result<(), NoMemory>
    requires unparked { (P.Peripheral.state display.old).is_parked ≡ false }
    requires display { is_display (P.Peripheral.state display.old).kind ≡ true }
    requires fits { input_fits (P.Peripheral.state display.old).kind input.now ≡ true }
    ensures taken { let state = P.Peripheral.state in TakenAt input.now place result
        (controls_of controls.old) (hardware_of (state display.old))
        (controls_of controls.new) (hardware_of (state display.new)) }
    ensures orders { let state = P.Peripheral.state in (state display.new).orders ≡ (state display.old).orders }
    ensures in_service { let state = P.Peripheral.state in
        StaysInService (state display.old) (state display.new) }
{
    take_input(alloc, controls, place, display, input)
}
