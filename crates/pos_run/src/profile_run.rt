//! The counter of a profile's devices and spares, which are simulated, and a run over it.
ghost use Rattle.std.specs.Prelude.{◌≡◌, IfErr, IfOk, IfSome, option_map};
ghost use Rattle.pos_run.specs.Simulations.{AreMounted, IsMountedFor, IsSimulable, IsSimulatedCounter, ProfileLeaves, SimulatedLeaves, simulated_for};
ghost use Rattle.pos_run.specs.Streams.{streams_of};

use crate::answers::AnswerWriter;
use crate::devices::{end_counter, offer};
use crate::mount::{AsSimulated, Mount};
use crate::script_reader::ScriptReader;
use crate::scripts::{RunFault, run};
use crate::simulation::simulate;
use crate::spares::{Spares, end_peripherals};
use pos_counter::Counter;
use pos_disk::Disk;
use pos_profile::laws::is_profile;
use pos_profile::{Entry, Profile};
use pos_service::{Ends, NoMemory, Peripheral};
use pos_streams::{Sink, Source};
use std::alloc::Global;

/// Returns what is simulated for an entry, in the wrappers that its keys ask for, and mounted. It is `None` for Hard
/// Totals.
///
/// # Errors
///
/// [`NoMemory`] if memory ran out.
#[tactic(auto, using(crate::proofs::ProfileLemmas::state_is_fresh, crate::proofs::ProfileLemmas::state_never_failed))]
fn simulate_mounted<P: Peripheral, M: Mount<P>>(
    alloc: Global,
    entry: &Entry,
    mount: &M,
) -> Result<Option<P>, NoMemory>
    requires { IsSimulable entry.now }
    ensures state { IfOk result (λ made. option_map P.Peripheral.state made ≡ simulated_for entry.now) }
    ensures mounted { IfOk result (λ made. IfSome made (IsMountedFor M.mounts entry.now)) }
{
    match simulate(alloc, entry)? {
        Some(simulation) => Ok(Some(mount.mount(entry, simulation)?)),
        None => Ok(None),
    }
}

/// Returns a counter over the devices of a profile and a disk, each device with a simulated peripheral, and the
/// profile's spares, simulated too. Each of them is in the wrappers that its keys ask for, and mounted.
///
/// # Errors
///
/// [`NoMemory`] if memory ran out, with the disk as it was.
pub fn simulate_profile<D: Disk, P: Peripheral + Ends, M: Mount<P>>(
    alloc: Global,
    profile: &Profile,
    disk: D,
    mount: &M,
) -> Result<(Counter<D, P>, Spares<P>), (NoMemory, D)>
    ensures made { IfOk result (λ made. IsSimulatedCounter P.Peripheral profile.now disk made.0 made.1) }
    ensures mounted { IfOk result (λ made. AreMounted M.mounts profile.now made.0 made.1) }
    ensures handed_back { IfErr result (λ refusal. refusal.1 ≡ disk) }
{
    is_profile(profile);
    let mut counter = match Counter::new(alloc, profile, Vec::new(alloc), disk) {
        Ok(counter) => counter,
        Err(refusal) => return Err(refusal),
    };
    for entry in profile.devices() {
        let Ok(made) = simulate_mounted(alloc, entry, mount) else {
            return Err((NoMemory, end_counter(counter)));
        };
        let Some(peripheral) = made else {
            continue;
        };
        offer(&mut counter, entry.name.as_bytes(), peripheral);
    }
    let Ok(mut spares) = Vec::with_capacity(alloc, profile.spares().len()) else {
        return Err((NoMemory, end_counter(counter)));
    };
    for entry in profile.spares() {
        let Ok(made) = simulate_mounted(alloc, entry, mount) else {
            end_peripherals(spares);
            return Err((NoMemory, end_counter(counter)));
        };
        spares.push_reserved(made);
    }
    Ok((counter, Spares::new(spares)))
}

/// Runs a script over a counter of a profile's devices and a disk, with the profile's spares. Each peripheral is
/// simulated, in the wrappers that its keys ask for. Returns how the run ended, and the disk.
///
/// A crash at any moment leaves what the machine may leave before, in or after a step of the lines that were carried
/// out. However the run ends, the devices and the spares end out of service.
///
/// # Errors
///
/// As of [`run`]. `NoMemory` also if the counter can't be made: then nothing was read or written, and the disk is as it
/// was.
pub fn run_over_profile<R: Source, W: Sink, D: Disk>(
    alloc: Global,
    reader: &mut ScriptReader<R>,
    writer: &mut AnswerWriter<W>,
    profile: &Profile,
    disk: D,
) -> (Result<(), RunFault>, D)
    ensures leaves { ProfileLeaves D.Disk profile.now disk
        (streams_of R.Source reader.old reader.new W.Sink writer.old writer.new) result.0 result.1 }
    ensures keys { SimulatedLeaves D.Disk profile.now disk
        (streams_of R.Source reader.old reader.new W.Sink writer.old writer.new) result.0 result.1 }
{
    let (mut counter, mut spares) = match simulate_profile(alloc, profile, disk, &AsSimulated) {
        Ok(made) => made,
        Err((NoMemory, disk)) => return (Err(RunFault::NoMemory), disk),
    };
    let result = run(alloc, reader, writer, &mut counter, &mut spares);
    let disk = end_counter(counter);
    spares.park_all();
    (result, disk)
}
