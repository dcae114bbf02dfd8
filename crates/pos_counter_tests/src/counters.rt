//! Counters over the built-in profile, and what scripts print over them.
ghost use Rattle.std.specs.Prelude.{◌≡◌, false, IfOk};
ghost use Rattle.pos_counter.specs.Counters.{IsCounterSound};

use pos_counter::Counter;
use pos_disk::Disk;
use pos_profile::Profile;
use pos_run::{AnswerWriter, ScriptReader, Spares, run};
use pos_service::{Peripheral, PeripheralBox};
use pos_streams::{MemorySource, WriterSink};
use std::alloc::Global;
use std::test::Fail;

/// A counter over a disk and the devices of the built-in profile, each of them vacant.
pub fn vacant<D: Disk + Drop, P: Peripheral>(alloc: Global, disk: D) -> Result<Counter<D, P>, Fail>
    ensures { IfOk result (λ counter. IsCounterSound P.Peripheral counter) }
{
    over(alloc, &Profile::built(alloc)?, disk)
}

/// A counter over a disk and the devices of a profile, each of them vacant.
pub fn over<D: Disk + Drop, P: Peripheral>(
    alloc: Global,
    profile: &Profile,
    disk: D,
) -> Result<Counter<D, P>, Fail>
    ensures { IfOk result (λ counter. IsCounterSound P.Peripheral counter) }
{
    match Counter::new(alloc, profile, Vec::new(alloc), disk) {
        Ok(counter) => Ok(counter),
        Err(_) => Err(Fail::new("no memory for a counter")),
    }
}

/// What a counter over a disk and the devices of a profile prints of lines, with its disk.
pub fn told<D: Disk + Drop>(
    alloc: Global,
    profile: &Profile,
    disk: D,
    lines: &[u8],
) -> Result<(Vec<u8>, D), Fail> {
    let mut counter = over(alloc, profile, disk)?;
    let text = text_of(alloc, &mut counter, lines);
    Ok((text, counter.shutdown().end()))
}

/// Has a peripheral serve a device. One that is refused is ended.
pub fn serve<D: Disk>(
    counter: &mut Counter<D, PeripheralBox>,
    name: &[u8],
    peripheral: PeripheralBox,
)
    requires sound { IsCounterSound ⟦<PeripheralBox as Peripheral>⟧ counter.old }
    requires unparked { (⟦<PeripheralBox as Peripheral>⟧.state peripheral).is_parked ≡ false }
    ensures { IsCounterSound ⟦<PeripheralBox as Peripheral>⟧ counter.new }
{
    if let Err((_, refused)) = counter.attach(name, peripheral) {
        refused.end();
    }
}

/// Runs a script over a counter, with its text behind what is there.
fn run_into<D: Disk>(
    alloc: Global,
    counter: &mut Counter<D, PeripheralBox>,
    script: &[u8],
    text: &mut Vec<u8>,
)
    requires { IsCounterSound ⟦<PeripheralBox as Peripheral>⟧ counter.old }
    ensures { IsCounterSound ⟦<PeripheralBox as Peripheral>⟧ counter.new }
{
    let mut spares = Spares::new(Vec::new(alloc));
    let mut reader = ScriptReader::new(MemorySource::new(script));
    let Ok(mut writer) = AnswerWriter::new(alloc, WriterSink::new(text)) else {
        spares.park_all();
        return;
    };
    let _ = run(alloc, &mut reader, &mut writer, counter, &mut spares);
    spares.park_all();
}

/// What a script prints over a counter.
pub fn text_of<D: Disk>(
    alloc: Global,
    counter: &mut Counter<D, PeripheralBox>,
    script: &[u8],
) -> Vec<u8>
    requires { IsCounterSound ⟦<PeripheralBox as Peripheral>⟧ counter.old }
    ensures { IsCounterSound ⟦<PeripheralBox as Peripheral>⟧ counter.new }
{
    let mut text = Vec::new(alloc);
    run_into(alloc, counter, script, &mut text);
    text
}
