//! What devices get for orders, and what is read of their replies: that the definitions are those of the devices.
use crate::driven::{print, text};
use pos_escpos::{NowStatus, OrderStatus, PrinterReply};
use pos_service::{
    Input, Kind, NoMemory, Order, PaperLevel, Peripheral, Reply, Signs, Snapshot, Taken,
};
use pos_sims::{PlainDisplay, PlainDrawer, PrintPreview, Roll, RollPrinter};
use pos_wire::{
    AwaitedReply, JobEnd, WireFault, WireSettings, order_bytes, read_reply, reply_text,
};
use std::alloc::Global;
use std::test::Fail;

/// A peripheral that doesn't say what it would print.
#[derive(Drop)]
struct Silent<P: Peripheral> {
    inner: P,
}

impl<P: Peripheral> Peripheral for Silent<P> {
    ghost state = { λ silent. P.Peripheral.state silent.inner };

    fn kind(&self) -> Kind {
        self.inner.kind()
    }

    fn signs(&self) -> Signs {
        self.inner.signs()
    }

    fn ask(&mut self, order: &Order) -> Result<Reply, NoMemory> {
        self.inner.ask(order)
    }

    fn feed(&mut self, input: &Input) -> Result<Taken, NoMemory> {
        self.inner.feed(input)
    }

    fn snapshot(&self) -> Result<Snapshot, NoMemory> {
        self.inner.snapshot()
    }

    fn park(&mut self) {
        self.inner.park();
    }

    fn is_parked(&self) -> bool {
        self.inner.is_parked()
    }
}

impl<P: Peripheral> PrintPreview for Silent<P> {
    fn would_add(&self, _: Global, _: &Order) -> Result<Option<Roll>, NoMemory> {
        Err(NoMemory)
    }
}

/// The settings of all devices here.
const SETTINGS: WireSettings = WireSettings {
    width: 42,
    cutter: 1,
    feed: 3,
    lines: 1_000,
    pin: 5,
    on: 0x19,
    off: 0xFA,
    open_is_high: 1,
    protocol: 1,
};

#[test]
fn a_printer_gets_what_its_order_adds(rt: HostRuntime) -> Result<(), Fail> {
    let alloc = rt.alloc();
    let mut printer = RollPrinter::new(alloc, 9, 100, 5);
    let _ = printer.ask(&print(alloc, b"gone\nTea: ")?);
    let order = print(alloc, b"1.20\nnext\x1B|100P")?;
    let bytes = order_bytes(alloc, &SETTINGS, false, JobEnd::Nothing, &printer, &order)?;
    let want = b"\x1Ba\x00Tea: 1.20\n\x1Ba\x00next\n\x1DVA\x03";
    assert!(rt; bytes.as_slice() == want.as_slice());
    let order = print(alloc, b"\n")?;
    let bytes = order_bytes(
        alloc,
        &SETTINGS,
        true,
        JobEnd::Job(0x1234),
        &printer,
        &order,
    )?;
    let want = b"\x1B@\x1Da\xFF\x1Ba\x00Tea: \n\x1D(H\x06\x0000ABCD";
    assert!(rt; bytes.as_slice() == want.as_slice());
    Ok(())
}

#[test]
fn a_drawer_gets_one_pulse(rt: HostRuntime) -> Result<(), Fail> {
    let alloc = rt.alloc();
    let mut drawer = Silent {
        inner: PlainDrawer::new(),
    };
    let end = JobEnd::Status(OrderStatus::Drawer);
    let bytes = order_bytes(alloc, &SETTINGS, false, end, &drawer, &Order::OpenDrawer)?;
    assert!(rt; bytes.as_slice() == b"\x1Bp\x01\x19\xFA\x1Dr\x02".as_slice());
    let _ = drawer.feed(&Input::PowerMoved(false));
    let bytes = order_bytes(alloc, &SETTINGS, false, end, &drawer, &Order::OpenDrawer);
    assert!(rt; matches!(bytes, Err(WireFault::NoBytes)));
    Ok(())
}

#[test]
fn a_display_gets_the_rows_that_change(rt: HostRuntime) -> Result<(), Fail> {
    let alloc = rt.alloc();
    let mut display = Silent {
        inner: PlainDisplay::new(alloc, 3, 4)?,
    };
    let _ = display.ask(&text(alloc, 1, b"Milk")?);
    let order = text(alloc, 1, b"\nTea")?;
    let bytes = order_bytes(alloc, &SETTINGS, false, JobEnd::Job(1), &display, &order)?;
    assert!(rt; bytes.as_slice() == b"\x1F$\x01\x03Tea ".as_slice());
    let bytes = order_bytes(alloc, &SETTINGS, true, JobEnd::Nothing, &display, &order)?;
    assert!(rt; bytes.as_slice() == b"\x1B@\x0C\x1F$\x01\x02Milk\x1F$\x01\x03Tea ".as_slice());
    Ok(())
}

#[test]
fn settings_have_their_ranges(rt: HostRuntime) -> Result<(), Fail> {
    let alloc = rt.alloc();
    let printer = RollPrinter::new(alloc, 42, 100, 5);
    let order = print(alloc, b"a\n")?;
    for settings in [
        WireSettings {
            width: 41,
            ..SETTINGS
        },
        WireSettings {
            cutter: 4,
            ..SETTINGS
        },
        WireSettings {
            feed: 256,
            ..SETTINGS
        },
        WireSettings {
            lines: 5,
            ..SETTINGS
        },
        WireSettings {
            lines: 100_001,
            ..SETTINGS
        },
    ] {
        let bytes = order_bytes(alloc, &settings, false, JobEnd::Nothing, &printer, &order);
        assert!(rt; matches!(bytes, Err(WireFault::BadSettings)));
    }
    let settings = WireSettings {
        pin: 3,
        protocol: 2,
        ..SETTINGS
    };
    assert!(rt; order_bytes(alloc, &settings, false, JobEnd::Nothing, &printer, &order).is_ok());
    let bytes = order_bytes(
        alloc,
        &settings,
        false,
        JobEnd::Nothing,
        &printer,
        &Order::OpenDrawer,
    );
    assert!(rt; matches!(bytes, Err(WireFault::NoBytes)));
    Ok(())
}

#[test]
fn a_reply_that_has_begun_is_read_again(rt: HostRuntime) {
    // Noise, an automatic status, and the beginning of an acknowledgement.
    let stream = [0x41, 0x10, 0x10, 0, 0x0F, 0, 0x37, 0x22];
    let read = read_reply(AwaitedReply::Nothing, &stream);
    assert!(rt; read.used == 6 && read.skipped == 2);
    assert!(rt; matches!(read.reply, Some(PrinterReply::Automatic(_))));
    let read = read_reply(AwaitedReply::Nothing, &stream[6..]);
    assert!(rt; read.used == 0 && read.skipped == 0 && read.reply.is_none());
    let whole = [0x37, 0x22, 0x41, 0x42, 0x43, 0x44, 0];
    let read = read_reply(AwaitedReply::Nothing, &whole);
    assert!(rt; read.used == 7 && matches!(read.reply, Some(PrinterReply::JobDone(0x1234))));
    let read = read_reply(AwaitedReply::Nothing, &[0x16, 0x10]);
    assert!(rt; read.used == 1 && read.skipped == 1 && read.reply.is_none());
    let read = read_reply(AwaitedReply::Now(NowStatus::Paper), &[0x10, 0x12]);
    assert!(rt; read.used == 2 && read.skipped == 1 && read.reply.is_some());
}

#[test]
fn a_reply_has_its_lines(rt: HostRuntime) -> Result<(), Fail> {
    let alloc = rt.alloc();
    let signs = Signs {
        powered: false,
        drawer_open: false,
        cover_open: false,
        paper: PaperLevel::Good,
    };
    let printer = Kind::Printer { chars: 42, near: 5 };
    // The pin is high, the cover open, and the paper near its end.
    let status = read_reply(AwaitedReply::Nothing, &[0x3C, 0, 0x03, 0])
        .reply
        .expect(&rt, "a status");
    let job = PrinterReply::JobDone(65_535);
    let told = "status pin high offline yes cover open paper near fault no\n";
    for (kind, reply, inputs, last) in [
        (
            printer,
            status,
            "input p1 power on\ninput p1 cover open\ninput p1 paper 5\n",
            told,
        ),
        (
            Kind::Drawer,
            status,
            "input p1 power on\ninput p1 open\n",
            told,
        ),
        (printer, job, "", "job 65535\n"),
        (Kind::Drawer, job, "", "job 65535\n"),
    ] {
        let lines = reply_text(alloc, &SETTINGS, b"p1", kind, signs, reply)?;
        let mut want = Vec::from_slice(alloc, inputs.as_bytes())?;
        want.extend_from_slice(last.as_bytes())?;
        assert!(rt; lines.as_slice() == want.as_slice());
    }
    let now = read_reply(AwaitedReply::Now(NowStatus::OfflineCause), &[0x12]);
    let told = now.reply.expect(&rt, "a status");
    let lines = reply_text(alloc, &SETTINGS, b"d", Kind::Drawer, signs, told)?;
    assert!(rt; lines.as_slice() == b"input d power on\nstatus cover closed fault no\n".as_slice());
    let lines = reply_text(alloc, &SETTINGS, b"s", Kind::Scanner, signs, job);
    assert!(rt; matches!(lines, Err(WireFault::NoBytes)));
    Ok(())
}
