//! The peripherals of a counter as a run begins, and as it ends.
ghost use Rattle.std.specs.Prelude.{◌≡◌, false};
ghost use Rattle.pos_disk.specs.State.{IsAtRest};
ghost use Rattle.pos_totals.specs.Views.{WhenReady};
ghost use Rattle.pos_counter.specs.Counters.{IsCounterSound, IsStepBeside};
ghost use Rattle.pos_counter.specs.Steps.{Attach, Response};
ghost use Rattle.pos_counter.specs.KeptDevices.{slots_in};
ghost use Rattle.pos_run.specs.Simulations.{Offers};
ghost use Rattle.pos_service.specs.Hardware.{hardware_of};

use pos_counter::Counter;
use pos_disk::Disk;
use pos_service::{Ends, Peripheral, park_and_end};

/// Attaches a peripheral in service to the device of a name. One that is refused is ended.
pub(crate) fn offer<D: Disk, P: Peripheral + Ends>(
    counter: &mut Counter<D, P>,
    name: &[u8],
    peripheral: P,
)
    requires sound { IsCounterSound P.Peripheral counter.old }
    requires unparked { (P.Peripheral.state peripheral).is_parked ≡ false }
    ensures step { (response : Response) × IsStepBeside P.Peripheral counter.old
        (Attach name.now (hardware_of (P.Peripheral.state peripheral))) response counter.new }
    ensures puts { Offers (slots_in counter.old.devices) name.now peripheral (slots_in counter.new.devices) }
    ensures sound { IsCounterSound P.Peripheral counter.new }
{
    if let Err((_, refused)) = counter.attach(name, peripheral) {
        park_and_end(refused);
    }
}

/// Shuts a counter down, ends its peripherals out of service, and returns its disk. That is at rest if the totals were
/// ready.
pub fn end_counter<D: Disk, P: Peripheral + Ends>(counter: Counter<D, P>) -> D
    requires { IsCounterSound P.Peripheral counter }
    ensures disk { result ≡ counter.totals.disk }
    ensures at_rest { D.honest result → WhenReady counter.totals.totals.mode (IsAtRest (D.state result)) }
{
    counter.shutdown().end()
}
