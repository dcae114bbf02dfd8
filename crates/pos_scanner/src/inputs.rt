//! What a scanner reads.
ghost use Rattle.std.specs.Prelude.{◌≡◌, false, true};
ghost use Rattle.pos_service.specs.Hardware.{StaysInService, TakenAt, hardware_of};
ghost use Rattle.pos_service.specs.Peripherals.{input_fits};
ghost use Rattle.pos_common.specs.KeptControls.{controls_of};

use pos_common::{Control, take_input};
use pos_service::{Input, Kind, NoMemory, Peripheral};
use std::alloc::Global;

/// Passes an input on to the scanner of the device at a place: a scan, a scan that failed, or a change of power. Each
/// control that has the device open and enabled takes it (common chapter, data events, error handling and device power
/// reporting; chapter Scanner):
///
/// - A scan comes in a DataEvent, with a copy of its own. With AutoDisable the control is then disabled.
/// - A failed scan puts it into the input error state.
/// - A change of power comes in a StatusUpdateEvent, if the control is notified of it.
///
/// All copies, and the room for all events, are made before the scanner takes the input.
///
/// # Errors
///
/// [`NoMemory`] if memory ran out. Then nothing has changed.
pub fn input<P: Peripheral>(
    alloc: Global,
    controls: &mut [Control],
    place: usize,
    scanner: &mut P,
    input: &Input,
) -> Result<(), NoMemory>
    requires unparked { (P.Peripheral.state scanner.old).is_parked ≡ false }
    requires scanner { (P.Peripheral.state scanner.old).kind ≡ Kind.Scanner }
    requires fits { input_fits (P.Peripheral.state scanner.old).kind input.now ≡ true }
    ensures taken { let state = P.Peripheral.state in TakenAt input.now place result
        (controls_of controls.old) (hardware_of (state scanner.old))
        (controls_of controls.new) (hardware_of (state scanner.new)) }
    ensures orders { let state = P.Peripheral.state in (state scanner.new).orders ≡ (state scanner.old).orders }
    ensures in_service { let state = P.Peripheral.state in
        StaysInService (state scanner.old) (state scanner.new) }
{
    take_input(alloc, controls, place, scanner, input)
}
