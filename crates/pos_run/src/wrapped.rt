//! The wrappers of a simulated peripheral.
ghost use Rattle.std.specs.Prelude.{◌≡◌, false, true};
ghost use Rattle.pos_run.specs.Simulations.{state_of, wrapped_by, wrapped_state};

use crate::simulation::Simulation;
use pos_drive::{Preview, Tears};
use pos_service::{Ends, Input, Kind, NoMemory, Order, Peripheral, Reply, Signs, Snapshot, Taken};
use pos_sims::{Flaky, PrintPreview, Recorder, Roll};
use std::alloc::Global;

/// A simulated peripheral with the wrappers that its entry asks for. One type has them all, so that a counter's devices
/// are boxes of one type. It ends only parked, which whoever lets it go has to show.
pub enum Wrapped {
    /// A device without a wrapper.
    Bare(Simulation),
    /// A device on a line that fails.
    Flaky(Flaky<Simulation>),
    /// A device whose orders are counted.
    Recorded(Recorder<Simulation>),
    /// A device on a line that fails. Its orders are counted before they reach the line.
    Both(Recorder<Flaky<Simulation>>),
}

/// Returns the device in its wrappers: a line that fails by these two numbers, and a recorder round it.
pub(crate) fn wrap(device: Simulation, flaky: Option<(u32, u32)>, recorded: bool) -> Wrapped
    requires { (state_of device).is_parked ≡ false }
    ensures { result ≡ wrapped_by flaky recorded device }
{
    let Some((first, times)) = flaky else {
        return if recorded {
            Wrapped::Recorded(Recorder::new(device))
        } else {
            Wrapped::Bare(device)
        };
    };
    let flaky = Flaky::new(device, first, times);
    if recorded {
        Wrapped::Both(Recorder::new(flaky))
    } else {
        Wrapped::Flaky(flaky)
    }
}

impl Peripheral for Wrapped {
    ghost state = { λ wrapped. wrapped_state wrapped };

    #[inline(always)]
    fn kind(&self) -> Kind {
        match self {
            Wrapped::Bare(device) => device.kind(),
            Wrapped::Flaky(flaky) => flaky.kind(),
            Wrapped::Recorded(recorder) => recorder.kind(),
            Wrapped::Both(recorder) => recorder.kind(),
        }
    }

    #[inline(always)]
    fn signs(&self) -> Signs {
        match self {
            Wrapped::Bare(device) => device.signs(),
            Wrapped::Flaky(flaky) => flaky.signs(),
            Wrapped::Recorded(recorder) => recorder.signs(),
            Wrapped::Both(recorder) => recorder.signs(),
        }
    }

    fn ask(&mut self, order: &Order) -> Result<Reply, NoMemory> {
        match self {
            Wrapped::Bare(device) => device.ask(order),
            Wrapped::Flaky(flaky) => flaky.ask(order),
            Wrapped::Recorded(recorder) => recorder.ask(order),
            Wrapped::Both(recorder) => recorder.ask(order),
        }
    }

    fn feed(&mut self, input: &Input) -> Result<Taken, NoMemory> {
        match self {
            Wrapped::Bare(device) => device.feed(input),
            Wrapped::Flaky(flaky) => flaky.feed(input),
            Wrapped::Recorded(recorder) => recorder.feed(input),
            Wrapped::Both(recorder) => recorder.feed(input),
        }
    }

    fn snapshot(&self) -> Result<Snapshot, NoMemory> {
        match self {
            Wrapped::Bare(device) => device.snapshot(),
            Wrapped::Flaky(flaky) => flaky.snapshot(),
            Wrapped::Recorded(recorder) => recorder.snapshot(),
            Wrapped::Both(recorder) => recorder.snapshot(),
        }
    }

    fn park(&mut self) {
        match self {
            Wrapped::Bare(device) => device.park(),
            Wrapped::Flaky(flaky) => flaky.park(),
            Wrapped::Recorded(recorder) => recorder.park(),
            Wrapped::Both(recorder) => recorder.park(),
        }
    }

    fn is_parked(&self) -> bool {
        match self {
            Wrapped::Bare(device) => device.is_parked(),
            Wrapped::Flaky(flaky) => flaky.is_parked(),
            Wrapped::Recorded(recorder) => recorder.is_parked(),
            Wrapped::Both(recorder) => recorder.is_parked(),
        }
    }
}

impl Preview for Wrapped {
    fn would(&self, order: &Order) -> Reply {
        match self {
            Wrapped::Bare(device) => device.would(order),
            Wrapped::Flaky(flaky) => flaky.would(order),
            Wrapped::Recorded(recorder) => recorder.would(order),
            Wrapped::Both(recorder) => recorder.would(order),
        }
    }
}

impl Tears for Wrapped {
    fn tear_off(&mut self) -> Result<(), NoMemory> {
        match self {
            Wrapped::Bare(device) => device.tear_off(),
            Wrapped::Flaky(flaky) => flaky.tear_off(),
            Wrapped::Recorded(recorder) => recorder.tear_off(),
            Wrapped::Both(recorder) => recorder.tear_off(),
        }
    }
}

impl PrintPreview for Wrapped {
    fn would_add(&self, alloc: Global, order: &Order) -> Result<Option<Roll>, NoMemory> {
        match self {
            Wrapped::Bare(device) => device.would_add(alloc, order),
            Wrapped::Flaky(flaky) => flaky.would_add(alloc, order),
            Wrapped::Recorded(recorder) => recorder.would_add(alloc, order),
            Wrapped::Both(recorder) => recorder.would_add(alloc, order),
        }
    }
}

impl Drop for Wrapped {
    fn drop(self)
        requires { (wrapped_state self).is_parked ≡ true }
    {
        match self {
            Wrapped::Bare(device) => drop(device),
            Wrapped::Flaky(flaky) => drop(flaky),
            Wrapped::Recorded(recorder) => drop(recorder),
            Wrapped::Both(recorder) => drop(recorder),
        }
    }
}

impl Ends for Wrapped {
    fn end(self) {
        drop(self);
    }
}
