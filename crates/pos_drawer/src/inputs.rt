//! What happens at a cash drawer from outside.
ghost use Rattle.std.specs.Prelude.{◌≡◌, false, true};
ghost use Rattle.pos_service.specs.Hardware.{StaysInService, TakenAt, hardware_of};
ghost use Rattle.pos_service.specs.Kinds.{is_drawer};
ghost use Rattle.pos_service.specs.Peripherals.{input_fits};
ghost use Rattle.pos_common.specs.KeptControls.{controls_of};

use pos_common::{Control, take_input};
use pos_service::{Input, NoMemory, Peripheral};
use std::alloc::Global;

/// Passes an input on to the drawer of the device at a place: it is opened or closed, or switched on or off. Each
/// control that has the device open and enabled gets the StatusUpdateEvent of it (chapter Cash Drawer; common chapter,
/// device power reporting).
///
/// # Errors
///
/// [`NoMemory`] if memory ran out. Then nothing has changed.
pub fn input<P: Peripheral>(
    alloc: Global,
    controls: &mut [Control],
    place: usize,
    drawer: &mut P,
    input: &Input,
) -> Result<(), NoMemory>
    requires unparked { (P.Peripheral.state drawer.old).is_parked ≡ false }
    requires drawer { is_drawer (P.Peripheral.state drawer.old).kind ≡ true }
    requires fits { input_fits (P.Peripheral.state drawer.old).kind input.now ≡ true }
    ensures taken { let state = P.Peripheral.state in TakenAt input.now place result
        (controls_of controls.old) (hardware_of (state drawer.old))
        (controls_of controls.new) (hardware_of (state drawer.new)) }
    ensures orders { let state = P.Peripheral.state in (state drawer.new).orders ≡ (state drawer.old).orders }
    ensures in_service { let state = P.Peripheral.state in
        StaysInService (state drawer.old) (state drawer.new) }
{
    take_input(alloc, controls, place, drawer, input)
}
