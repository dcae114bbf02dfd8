ghost use Rattle.std.specs.Prelude.{None};

use pos_counter::Counter;
use pos_image::new_disk;
use pos_profile::Profile;
use pos_run::{AnswerWriter, RunFault, ScriptReader, Spares, end_counter, run, run_over_profile};
use pos_service::{Mechanism, Peripheral, PeripheralBox, Snapshot};
use pos_sims::PlainDrawer;
use pos_streams::{ReaderSource, WriterSink};
use std::alloc::Global;
use std::io;
use std::io::{ErrorKind, Read, Write};
use std::test::Fail;

/// A reader of these bytes that gives at most so many a read. Its read of a number, counted from 0, is interrupted, and
/// the later ones go on. It counts its reads.
#[derive(Drop)]
pub struct Pieces {
    bytes: &'static [u8],
    most: usize,
    fails: usize,
    pub reads: usize,
}

impl Pieces {
    pub fn new(bytes: &'static [u8], most: usize, fails: usize) -> Self {
        Pieces {
            bytes,
            most,
            fails,
            reads: 0,
        }
    }
}

impl Read for Pieces {
    ghost remaining = { λ _. None };

    fn read(&mut self, buf: &mut [u8]) -> io::Result<usize> {
        let number = self.reads;
        self.reads = number.saturating_add(1);
        if number == self.fails {
            return Err(io::Error::from(ErrorKind::Interrupted));
        }
        let count = buf.len().min(self.most).min(self.bytes.len());
        let (piece, rest) = self.bytes.split_at(count);
        buf[..count].copy_from_slice(piece);
        self.bytes = rest;
        Ok(count)
    }
}

/// A writer into room for 64 bytes that takes at most so many a write. Its call of a number, counted from 0, fails, and
/// the later ones go on. It counts its calls, and of them its flushes.
#[derive(Drop)]
pub struct Room {
    bytes: [u8; 64],
    len: usize,
    most: usize,
    fails: usize,
    pub calls: usize,
    flushes: usize,
}

impl Room {
    pub fn new(most: usize, fails: usize) -> Self {
        Room {
            bytes: [0; 64],
            len: 0,
            most,
            fails,
            calls: 0,
            flushes: 0,
        }
    }

    pub fn text(&self) -> &[u8] {
        &self.bytes[..self.len.min(64)]
    }

    fn fails_now(&mut self) -> bool {
        let number = self.calls;
        self.calls = number.saturating_add(1);
        number == self.fails
    }
}

impl Write for Room {
    ghost contents = { λ _. None };

    fn write(&mut self, buf: &[u8]) -> io::Result<usize> {
        if self.fails_now() {
            return Err(io::Error::from(ErrorKind::Interrupted));
        }
        let at = self.len.min(64);
        let count = buf.len().min(self.most).min(64 - at);
        self.bytes[at..at + count].copy_from_slice(&buf[..count]);
        self.len = at + count;
        Ok(count)
    }

    fn flush(&mut self) -> io::Result<()> {
        self.flushes = self.flushes.saturating_add(1);
        if self.fails_now() {
            return Err(io::Error::from(ErrorKind::Interrupted));
        }
        Ok(())
    }
}

/// No call of this number comes.
pub const NEVER: usize = usize::MAX;

const SCRIPT: &[u8] = b"show d2\nattach r1 1\n\nnew a CashDrawer\r\nget a State";

const TEXT: &[u8] = b"bad device\nrefused InUse\nok\nok 1\n";

/// How a run over the built-in profile ends.
fn ran(alloc: Global, reader: &mut Pieces, room: &mut Room) -> Result<Result<(), RunFault>, Fail> {
    let profile = Profile::built(alloc)?;
    let disk = new_disk(alloc)?;
    let mut reader = ScriptReader::new(ReaderSource::new(reader));
    let mut writer = AnswerWriter::new(alloc, WriterSink::new(room))?;
    let (result, _disk) = run_over_profile(alloc, &mut reader, &mut writer, &profile, disk);
    Ok(result)
}

/// How much of the text the lines print that this many bytes of the script end, of which each is read alone.
fn printed(bytes: usize) -> usize {
    if bytes < 8 {
        0
    } else if bytes < 20 {
        11
    } else if bytes < 39 {
        25
    } else {
        28
    }
}

#[test]
fn pieces_of_any_length_print_the_same(rt: HostRuntime) -> Result<(), Fail> {
    for most in [1, 2, 7, 64] {
        for taken in [1, 2, 64] {
            let mut reader = Pieces::new(SCRIPT, most, NEVER);
            let mut room = Room::new(taken, NEVER);
            assert!(rt; ran(rt.alloc(), &mut reader, &mut room)? == Ok(()));
            assert!(rt; room.text() == TEXT && room.flushes == reader.reads.saturating_add(1));
        }
    }
    Ok(())
}

#[test]
fn a_failed_read_ends_the_run_after_the_lines_before(rt: HostRuntime) -> Result<(), Fail> {
    for fails in 0..51 {
        let mut reader = Pieces::new(SCRIPT, 1, fails);
        let mut room = Room::new(64, NEVER);
        assert!(rt; ran(rt.alloc(), &mut reader, &mut room)? == Err(RunFault::Read));
        assert!(rt; reader.reads == fails + 1);
        assert!(rt; TEXT.starts_with(room.text()) && room.text().len() == printed(fails));
    }
    Ok(())
}

#[test]
fn a_failed_write_or_flush_ends_the_run(rt: HostRuntime) -> Result<(), Fail> {
    let mut reader = Pieces::new(SCRIPT, 7, NEVER);
    let mut room = Room::new(5, NEVER);
    assert!(rt; ran(rt.alloc(), &mut reader, &mut room)? == Ok(()));
    let calls = room.calls;
    for fails in 0..calls {
        let mut reader = Pieces::new(SCRIPT, 7, NEVER);
        let mut room = Room::new(5, fails);
        assert!(rt; ran(rt.alloc(), &mut reader, &mut room)? == Err(RunFault::Write));
        assert!(rt; room.calls == fails.saturating_add(1) && TEXT.starts_with(room.text()));
    }
    Ok(())
}

#[test]
fn a_writer_that_takes_nothing_is_a_fault(rt: HostRuntime) -> Result<(), Fail> {
    let mut reader = Pieces::new(SCRIPT, 7, NEVER);
    let mut room = Room::new(0, NEVER);
    assert!(rt; ran(rt.alloc(), &mut reader, &mut room)? == Err(RunFault::Write));
    assert!(rt; room.text().is_empty());
    Ok(())
}

const OPENING: &[u8] = b"new a CashDrawer\nopen a d1\nset a DeviceEnabled true\ncall a openDrawer\n\
    input d1 closed\ncall a openDrawer\ndeliver a\n";

/// Runs lines over a counter whose drawer `d1` is served. Tells how the run ended, and whether `d1` is open.
fn drawer_after(
    alloc: Global,
    reader: &mut Pieces,
    room: &mut Room,
) -> Result<(Result<(), RunFault>, bool), Fail> {
    let profile = Profile::built(alloc)?;
    let drawer: Box<dyn Peripheral + Drop> = Box::new(alloc, PlainDrawer::new())?;
    let disk = new_disk(alloc)?;
    let mut reader = ScriptReader::new(ReaderSource::new(reader));
    let mut writer = AnswerWriter::new(alloc, WriterSink::new(room))?;
    let Ok(mut counter) = Counter::new(alloc, &profile, Vec::new(alloc), disk) else {
        return Err(Fail::new("no counter"));
    };
    if let Err((_, refused)) = counter.attach(b"d1", PeripheralBox::new(drawer)) {
        refused.end();
    }
    let mut spares = Spares::new(Vec::new(alloc));
    let result = run(alloc, &mut reader, &mut writer, &mut counter, &mut spares);
    let is_open = match counter.snapshot(b"d1") {
        Ok(Snapshot(plant)) => matches!(plant.mechanism, Mechanism::Drawer(true)),
        Err(_) => false,
    };
    end_counter(counter);
    spares.park_all();
    Ok((result, is_open))
}

#[test]
fn a_read_that_fails_behind_the_fourth_line(rt: HostRuntime) -> Result<(), Fail> {
    for most in [1, 2, 7] {
        let behind = 70 / most;
        let mut reader = Pieces::new(OPENING, most, behind);
        let mut room = Room::new(64, NEVER);
        let (result, is_open) = drawer_after(rt.alloc(), &mut reader, &mut room)?;
        assert!(rt; result == Err(RunFault::Read) && is_open);
        assert!(rt; room.text() == b"ok\nok\nok\nok\n".as_slice() && reader.reads == behind + 1);
    }
    Ok(())
}

#[test]
fn no_line_is_carried_out_after_a_fault_of_the_writer(rt: HostRuntime) -> Result<(), Fail> {
    let mut reader = Pieces::new(OPENING, 7, NEVER);
    let mut room = Room::new(64, NEVER);
    let (result, is_open) = drawer_after(rt.alloc(), &mut reader, &mut room)?;
    assert!(rt; result == Ok(()) && is_open);
    let calls = room.calls;
    for fails in 0..calls {
        let mut reader = Pieces::new(OPENING, 7, NEVER);
        let mut room = Room::new(64, fails);
        let (result, is_open) = drawer_after(rt.alloc(), &mut reader, &mut room)?;
        let bytes = reader.reads.saturating_mul(7);
        let opened = 70 <= bytes && bytes < 86 || 104 <= bytes;
        assert!(rt; result == Err(RunFault::Write) && is_open == opened);
        assert!(rt; room.calls == fails.saturating_add(1));
    }
    Ok(())
}

#[test]
fn faults_have_texts(rt: HostRuntime) -> Result<(), Fail> {
    let (read, write, none) = (RunFault::Read, RunFault::Write, RunFault::NoMemory);
    let text = format!(in rt.alloc(); "{read}, {write}, {none}")?;
    let want = "the script can't be read, the answers can't be written, no memory";
    assert_eq!(rt; text.as_str(), want);
    Ok(())
}
