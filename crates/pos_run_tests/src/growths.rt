//! A run that finds no memory for its writer or for its lines has read and written nothing. It is begun once more, so
//! with one growth refused all is as with none.
ghost use Rattle.pos_counter.specs.Counters.{IsCounterSound};

use crate::runs::{NEVER, Pieces, Room};
use pos_counter::Counter;
use pos_disk::MemDisk;
use pos_image::new_disk;
use pos_profile::Profile;
use pos_run::{AnswerWriter, RunFault, ScriptReader, Spares, end_counter, run};
use pos_service::{Peripheral, PeripheralBox};
use pos_streams::{ReaderSource, WriterSink};
use std::alloc::Global;
use std::test::Fail;

/// How a run over a counter without spares ends.
fn ran(
    alloc: Global,
    reader: &mut Pieces,
    room: &mut Room,
    counter: &mut Counter<MemDisk, PeripheralBox>,
) -> Result<(), RunFault>
    requires { IsCounterSound ⟦<PeripheralBox as Peripheral>⟧ counter.old }
    ensures { IsCounterSound ⟦<PeripheralBox as Peripheral>⟧ counter.new }
{
    let Ok(mut writer) = AnswerWriter::new(alloc, WriterSink::new(room)) else {
        return Err(RunFault::NoMemory);
    };
    let mut reader = ScriptReader::new(ReaderSource::new(reader));
    let mut spares = Spares::new(Vec::new(alloc));
    let result = run(alloc, &mut reader, &mut writer, counter, &mut spares);
    spares.park_all();
    result
}

#[test]
fn a_run_is_begun_once_more(rt: HostRuntime) -> Result<(), Fail> {
    let alloc = rt.alloc();
    let profile = Profile::built(alloc)?;
    let disk = new_disk(alloc)?;
    let Ok(mut counter) = Counter::new(alloc, &profile, Vec::new(alloc), disk) else {
        return Err(Fail::new("no memory for a counter"));
    };
    let mut reader = Pieces::new(b"get a State\nshow d1\n", 7, NEVER);
    let mut room = Room::new(64, NEVER);
    let first = ran(alloc, &mut reader, &mut room, &mut counter);
    let untouched = (reader.reads, room.calls) == (0, 0);
    let result = match first {
        Err(RunFault::NoMemory) => ran(alloc, &mut reader, &mut room, &mut counter),
        result => result,
    };
    end_counter(counter);
    assert!(rt; first == Ok(()) || untouched);
    assert!(rt; result == Ok(()) && room.text() == b"bad control\nbad device\n".as_slice());
    Ok(())
}
