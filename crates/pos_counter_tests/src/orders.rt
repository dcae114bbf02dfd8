//! That no memory is taken after an order. A test can't see a growth, so `tests/memory.sh -t` looks from outside: each
//! peripheral grows by `ORDER` bytes when it has got an order, and the reader by `ANSWERED` bytes when all answers are
//! written. Between the two no growth may come. Without that script the tests only compare the answers.
ghost use Rattle.std.specs.Prelude.{◌≡◌, false, None};
ghost use Rattle.pos_counter.specs.Counters.{IsCounterSound};

use crate::counters::{serve, vacant};
use pos_counter::Counter;
use pos_disk::{Disk, MemDisk};
use pos_image::new_disk;
use pos_run::{AnswerWriter, ScriptReader, Spares, run};
use pos_service::{
    Input, Kind, NoMemory, Order, Peripheral, PeripheralBox, Reply, Signs, Snapshot, Taken,
};
use pos_sims::{PlainDisplay, PlainDrawer, RollPrinter};
use pos_streams::{ReaderSource, WriterSink};
use std::alloc::Global;
use std::io;
use std::io::Read;
use std::test::Fail;

/// How many bytes a peripheral grows by when it has got an order. Nothing else grows by as many.
const ORDER: usize = 7_777;

/// How many bytes the reader grows by when the answers to all earlier lines are written.
const ANSWERED: usize = 7_778;

/// A growth of so many bytes.
fn mark(alloc: Global, bytes: usize) -> Vec<u8> {
    match Vec::with_capacity(alloc, bytes) {
        Ok(room) => room,
        Err(_) => Vec::new(alloc),
    }
}

/// A peripheral that marks each of its orders, once the peripheral within has answered it.
#[derive(Drop)]
struct Marking<P: Peripheral> {
    inner: P,
    alloc: Global,
    last: Vec<u8>,
}

impl<P: Peripheral> Marking<P> {
    fn new(alloc: Global, inner: P) -> Self
        ensures { result.inner ≡ inner }
    {
        Marking {
            inner,
            alloc,
            last: Vec::new(alloc),
        }
    }
}

impl<P: Peripheral> Peripheral for Marking<P> {
    ghost state = { λ marking. P.state marking.inner };

    fn kind(&self) -> Kind {
        self.inner.kind()
    }

    fn signs(&self) -> Signs {
        self.inner.signs()
    }

    fn ask(&mut self, order: &Order) -> Result<Reply, NoMemory> {
        let answer = self.inner.ask(order);
        self.last = mark(self.alloc, ORDER);
        answer
    }

    fn feed(&mut self, input: &Input) -> Result<Taken, NoMemory> {
        self.inner.feed(input)
    }

    fn snapshot(&self) -> Result<Snapshot, NoMemory> {
        self.inner.snapshot()
    }

    fn park(&mut self) {
        self.inner.park();
    }

    fn is_parked(&self) -> bool {
        self.inner.is_parked()
    }
}

/// A reader that gives one line a read, and marks that all answers are written.
#[derive(Drop)]
struct Lines {
    bytes: &'static [u8],
    alloc: Global,
    last: Vec<u8>,
}

impl Read for Lines {
    ghost remaining = { λ _. None };

    fn read(&mut self, buf: &mut [u8]) -> io::Result<usize> {
        self.last = mark(self.alloc, ANSWERED);
        let mut count: usize = 0;
        let most = buf.len().min(self.bytes.len());
        for byte in &self.bytes[..most] {
            count = count.saturating_add(1);
            if *byte == b'\n' {
                break;
            }
        }
        let count = most.min(count);
        let (line, rest) = self.bytes.split_at(count);
        buf[..count].copy_from_slice(line);
        self.bytes = rest;
        Ok(count)
    }
}

/// Runs a script over a counter, one line a read.
fn run_lines<D: Disk>(
    alloc: Global,
    counter: &mut Counter<D, PeripheralBox>,
    bytes: &'static [u8],
    text: &mut Vec<u8>,
)
    requires { IsCounterSound ⟦<PeripheralBox as Peripheral>⟧ counter.old }
    ensures { IsCounterSound ⟦<PeripheralBox as Peripheral>⟧ counter.new }
{
    let mut spares = Spares::new(Vec::new(alloc));
    let lines = Lines {
        bytes,
        alloc,
        last: Vec::new(alloc),
    };
    let mut reader = ScriptReader::new(ReaderSource::new(lines));
    let Ok(mut writer) = AnswerWriter::new(alloc, WriterSink::new(text)) else {
        spares.park_all();
        return;
    };
    let _ = run(alloc, &mut reader, &mut writer, counter, &mut spares);
    spares.park_all();
}

/// What a script prints over a drawer, a display and a printer that mark their orders. Its text has room from the
/// start.
fn told(alloc: Global, disk: MemDisk, script: &'static [u8]) -> Result<Vec<u8>, Fail> {
    let drawer = Box::new(alloc, Marking::new(alloc, PlainDrawer::new()))?;
    let display = Box::new(alloc, Marking::new(alloc, PlainDisplay::new(alloc, 2, 4)?))?;
    let printer = Box::new(alloc, Marking::new(alloc, RollPrinter::new(alloc, 8, 5, 2)))?;
    let mut text = Vec::with_capacity(alloc, 4_096)?;
    let mut counter = vacant(alloc, disk)?;
    serve(&mut counter, b"d1", PeripheralBox::new(drawer));
    serve(&mut counter, b"p1", PeripheralBox::new(display));
    serve(&mut counter, b"r1", PeripheralBox::new(printer));
    run_lines(alloc, &mut counter, script, &mut text);
    counter.shutdown().end();
    Ok(text)
}

/// Each call that orders, of two controls of the drawer, a display and a printer; orders that are refused; and work.
const SCRIPT: &[u8] =
    b"new a CashDrawer\nopen a d1\nset a DeviceEnabled true\nnew b CashDrawer\nopen b d1\n\
    set b DeviceEnabled true\ncall a openDrawer\ncall b openDrawer\ndeliver b\ninput d1 power off\ncall a openDrawer\n\
    new c LineDisplay\nopen c p1\nclaim c 0\nset c DeviceEnabled true\ncall c displayText 4142 0\n\
    call c displayTextAt 1 0 43 2\ncall c scrollText 3 1\ncall c clearText\n\
    new d POSPrinter\nopen d r1\nclaim d 0\nset d DeviceEnabled true\ncall d printNormal 2 410a\n\
    call d printImmediate 2 42\ncall d cutPaper 50\nset d AsyncMode true\ncall d printNormal 2 430a\n\
    call d cutPaper 50\nwork r1\ninput r1 cover open\nwork r1\ndeliver d\ndeliver d\ndeliver d\ncall d clearOutput\n";

const TEXT: &[u8] = b"ok\nok\nok\nok\nok\nok\nok\nok\nevent StatusUpdateEvent 1\nok\nerr 108\n\
    ok\nok\nok\nok\nok\nok\nok\nok\n\
    ok\nok\nok\nok\nok\nok\nok\nok\nok\nok\ndone 1\nok\nfailed 114 201\n\
    event StatusUpdateEvent 25\nevent OutputCompleteEvent 1\nevent StatusUpdateEvent 11\nok\n";

#[test]
fn answers_after_an_order(rt: HostRuntime) -> Result<(), Fail> {
    let text = told(rt.alloc(), new_disk(rt.alloc())?, SCRIPT)?;
    assert_eq!(rt; text.as_slice(), TEXT);
    Ok(())
}
