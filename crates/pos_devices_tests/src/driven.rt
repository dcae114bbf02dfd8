use pos_drive::{Awaits, Driven, Hosted, Preview, Progress};
use pos_service::display_text::Attribute;
use pos_service::receipt_text::{Alignment, Mark};
use pos_service::{Bytes, Input, Mechanism, NoMemory, Order, Peripheral, Reply};
use pos_sims::{PlainDisplay, PlainDrawer, PrintPreview, Roll, RollPrinter};
use std::alloc::Global;
use std::test::Fail;

/// Gives an order that waits to the host, which reports what became of it.
fn reported<P: Hosted>(device: &mut P, order: &Order, is_done: bool) -> bool {
    let waits = device.ask(order).is_err() && device.progress() == Progress::Waits;
    device.hand_out();
    let has_it = device.ask(order).is_err() && device.progress() == Progress::HandedOut;
    device.report(is_done);
    waits && has_it && device.progress() == Progress::Reported
}

#[test]
fn an_order_that_is_reported_as_done_is_done(rt: HostRuntime) {
    let mut drawer = Driven::new(rt.alloc(), PlainDrawer::new());
    assert!(rt; matches!(drawer.ask(&Order::OpenDrawer), Ok(Reply::Done)));
    let _ = drawer.feed(&Input::DrawerMoved(false));
    drawer.drive();
    assert!(rt; reported(&mut drawer, &Order::OpenDrawer, true));
    assert!(rt; !drawer.signs().drawer_open);
    assert!(rt; matches!(drawer.ask(&Order::OpenDrawer), Ok(Reply::Done)));
    assert!(rt; drawer.signs().drawer_open);
    assert!(rt; drawer.progress() == Progress::Ready);
    drop(drawer.into_twin());
}

#[test]
fn an_order_that_is_reported_as_not_done_fails_or_is_refused(rt: HostRuntime) {
    let mut drawer = Driven::new(rt.alloc(), PlainDrawer::new());
    drawer.drive();
    assert!(rt; reported(&mut drawer, &Order::OpenDrawer, false));
    assert!(rt; matches!(drawer.ask(&Order::OpenDrawer), Ok(Reply::LineFault)));
    assert!(rt; !drawer.signs().drawer_open);
    assert!(rt; reported(&mut drawer, &Order::OpenDrawer, false));
    let _ = drawer.feed(&Input::PowerMoved(false));
    assert!(rt; matches!(drawer.ask(&Order::OpenDrawer), Ok(Reply::Offline)));
    // one that is off refuses by itself
    assert!(rt; matches!(drawer.ask(&Order::OpenDrawer), Ok(Reply::Offline)));
    assert!(rt; drawer.waiting().is_none());
    drop(drawer.into_twin());
}

/// A text at the beginning of a row.
pub fn text(alloc: Global, row: u32, bytes: &[u8]) -> Result<Order, NoMemory> {
    Ok(Order::ShowText {
        row,
        column: 0,
        attribute: Attribute::Normal,
        bytes: Bytes::from_slice(alloc, bytes)?,
    })
}

#[test]
fn a_report_is_of_one_order(rt: HostRuntime) -> Result<(), Fail> {
    let (one, other) = (text(rt.alloc(), 0, b"A")?, text(rt.alloc(), 0, b"B")?);
    let mut display = Driven::new(rt.alloc(), PlainDisplay::new(rt.alloc(), 1, 4)?);
    display.drive();
    assert!(rt; reported(&mut display, &one, true));
    assert!(rt; reported(&mut display, &other, true));
    assert!(rt; matches!(display.ask(&other), Ok(Reply::Done)));
    drop(display.into_twin());
    Ok(())
}

/// A request for a text.
pub fn print(alloc: Global, bytes: &[u8]) -> Result<Order, NoMemory> {
    Ok(Order::Print {
        bytes: Bytes::from_slice(alloc, bytes)?,
    })
}

#[test]
fn a_printer_foresees_what_it_replies(rt: HostRuntime) -> Result<(), Fail> {
    let texts: [(&[u8], Reply); 6] = [
        (b"AB", Reply::Done),
        (b"CDEF\n", Reply::Done),
        (b"GHIJK\nL\n", Reply::PaperEnd),
        (b"GHIJ\r\nL", Reply::Done),
        (b"MNO", Reply::Done),
        (b"\n\n", Reply::PaperEnd),
    ];
    let mut printer = RollPrinter::new(rt.alloc(), 4, 4, 1);
    for (bytes, reply) in texts {
        let order = print(rt.alloc(), bytes)?;
        assert!(rt; printer.would(&order) == reply);
        assert!(rt; matches!(printer.ask(&order), Ok(said) if said == reply));
    }
    let _ = printer.feed(&Input::CoverMoved(true));
    assert!(rt; printer.would(&Order::Cut { percentage: 50 }) == Reply::CoverOpen);
    Ok(())
}

/// Whether the end of a begun line, a whole line, a cut and the beginning of a line are added.
fn has_two_lines(added: &Roll) -> bool {
    let (marks, characters) = added.printed();
    let lines = [
        Mark::Line(Alignment::Left, 3),
        Mark::Line(Alignment::Center, 3),
        Mark::Cut(50),
    ];
    let text = characters.iter().map(|it| it.byte);
    marks == lines.as_slice() && text.eq(*b"twoABCX")
}

/// Whether a printer prints an order, and then has so much paper as was foreseen.
fn leaves(printer: &mut RollPrinter, order: &Order, lines_left: u32) -> Result<bool, NoMemory> {
    let is_done = matches!(printer.ask(order), Ok(Reply::Done));
    let Mechanism::Printer(receipt) = &printer.snapshot()?.0.mechanism else {
        return Ok(false);
    };
    Ok(is_done && receipt.lines_left() == lines_left)
}

#[test]
fn a_printer_foresees_what_an_order_adds(rt: HostRuntime) -> Result<(), Fail> {
    let mut printer = RollPrinter::new(rt.alloc(), 4, 9, 1);
    let begun = print(rt.alloc(), b"one\ntw")?;
    assert!(rt; matches!(printer.ask(&begun), Ok(Reply::Done)));
    let order = print(rt.alloc(), b"o\n\x1b|cAABC\n\x1b|50PX")?;
    let Some(added) = printer.would_add(rt.alloc(), &order)? else {
        panic!(rt; "it would print");
    };
    assert!(rt; has_two_lines(&added));
    assert!(rt; leaves(&mut printer, &order, added.lines_left())?);
    let _ = printer.feed(&Input::PowerMoved(false));
    assert!(rt; printer.would_add(rt.alloc(), &order)?.is_none());
    Ok(())
}
