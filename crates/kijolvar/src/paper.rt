//! Taking away the paper that a device of a till has printed.
ghost use Rattle.std.specs.Prelude.{◌≡◌};
ghost use Rattle.kijolvar.specs.HeldLines.{IsTillSound};
ghost use Rattle.kijolvar.specs.Paper.{TearsOff, torn_code};

use crate::codes::{NO_DEVICE, NO_MEMORY, OK};
use crate::device::Device;
use crate::till_state::TillState;
use pos_drive::Awaits;
use pos_service::{NoMemory, Peripheral};

/// Returns the code by whether there was a device, and whether there was memory.
fn torn_code(outcome: Result<bool, NoMemory>) -> u32
    ensures { result ≡ torn_code outcome }
{
    match outcome {
        Ok(true) => OK,
        Ok(false) => NO_DEVICE,
        Err(NoMemory) => NO_MEMORY,
    }
}

/// Takes the printed paper of the device of a name away, and returns OK.
///
/// # Errors
///
/// NO_DEVICE if no device has the name or nothing serves it, and NO_MEMORY if memory ran out. Then nothing changes.
pub(crate) fn tear_off(till_state: &mut TillState, name: &[u8]) -> u32
    requires { IsTillSound ⟦<Device as Peripheral>⟧ till_state.old }
    ensures tears { TearsOff ⟦<Device as Awaits>⟧.course ⟦<Device as Peripheral>⟧ till_state.old name.now result
        till_state.new }
    ensures sound { IsTillSound ⟦<Device as Peripheral>⟧ till_state.new }
{
    let outcome = till_state.counter.tear_off(name);
    torn_code(outcome)
}
