//! What happens at a receipt printer from outside.
ghost use Rattle.std.specs.Prelude.{◌≡◌, false, true};
ghost use Rattle.pos_service.specs.Hardware.{StaysInService, TakenAt, hardware_of};
ghost use Rattle.pos_service.specs.Kinds.{is_printer};
ghost use Rattle.pos_service.specs.Peripherals.{input_fits};
ghost use Rattle.pos_common.specs.KeptControls.{controls_of};

use pos_common::{Control, take_input};
use pos_service::{Input, NoMemory, Peripheral};
use std::alloc::Global;

/// Passes an input on to the printer of the device at a place: a cover is moved, paper is loaded, or power is switched.
/// Each control that has the device open and enabled gets the StatusUpdateEvent of it (chapter POS Printer).
///
/// # Errors
///
/// [`NoMemory`] if memory ran out. Then nothing has changed.
pub fn input<P: Peripheral>(
    alloc: Global,
    controls: &mut [Control],
    place: usize,
    printer: &mut P,
    input: &Input,
) -> Result<(), NoMemory>
    requires unparked { (P.Peripheral.state printer.old).is_parked ≡ false }
    requires printer { is_printer (P.Peripheral.state printer.old).kind ≡ true }
    requires fits { input_fits (P.Peripheral.state printer.old).kind input.now ≡ true }
    ensures taken { let state = P.Peripheral.state in TakenAt input.now place result
        (controls_of controls.old) (hardware_of (state printer.old))
        (controls_of controls.new) (hardware_of (state printer.new)) }
    ensures orders { let state = P.Peripheral.state in (state printer.new).orders ≡ (state printer.old).orders }
    ensures in_service { let state = P.Peripheral.state in
        StaysInService (state printer.old) (state printer.new) }
{
    take_input(alloc, controls, place, printer, input)
}
