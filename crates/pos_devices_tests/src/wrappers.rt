use crate::steps::{Step, played};
use pos_service::display_text::{Attribute, Direction};
use pos_service::{
    Bytes, Call, Event, Input, Mechanism, NoMemory, Order, Peripheral, Reply, Snapshot,
};
use pos_sims::{Flaky, PlainDisplay, PlainDrawer, Recorder, RingDisplay, RollPrinter};
use std::alloc::Global;
use std::test::Fail;

/// Whether a drawer opens when it is asked to; else its line fails.
fn opens<P: Peripheral>(drawer: &mut P) -> bool {
    matches!(drawer.ask(&Order::OpenDrawer), Ok(Reply::Done))
}

#[test]
fn a_flaky_line_fails_by_the_numbers_of_the_orders(rt: HostRuntime) {
    let schedules = [
        (1, 1, [false, true, true, true]),
        (2, 2, [true, false, false, true]),
        (0, 3, [false, false, true, true]),
        (2, 0, [true, true, true, true]),
    ];
    for (first, times, opened) in schedules {
        let mut drawer = Flaky::new(PlainDrawer::new(), first, times);
        for is_opened in opened {
            assert_eq!(rt; opens(&mut drawer), is_opened);
        }
    }
}

#[test]
fn a_failed_order_is_counted_and_done_when_it_comes_again(rt: HostRuntime) -> Result<(), Fail> {
    let mut drawer = Recorder::new(Flaky::new(PlainDrawer::new(), 1, 1));
    let steps = [
        Step::Asked(Call::OpenDrawer),
        Step::Fed(Input::DrawerMoved(false)),
    ];
    let events = [Event::StatusUpdate(1), Event::StatusUpdate(0)];
    let shown = played(rt.alloc(), &mut drawer, &steps, &events)?;
    assert!(rt; matches!(shown.0.mechanism, Mechanism::Drawer(false)));
    assert_eq!(rt; drawer.asks(), 2);
    Ok(())
}

#[test]
fn a_line_fails_before_its_device_is_off(rt: HostRuntime) {
    let mut drawer = Recorder::new(Flaky::new(PlainDrawer::new(), 1, 1));
    assert!(rt; drawer.feed(&Input::PowerMoved(false)).is_ok());
    assert!(rt; !drawer.signs().powered);
    assert!(rt; matches!(drawer.ask(&Order::OpenDrawer), Ok(Reply::LineFault)));
    assert!(rt; matches!(drawer.ask(&Order::OpenDrawer), Ok(Reply::Offline)));
    assert!(rt; drawer.feed(&Input::PowerMoved(true)).is_ok());
    assert!(rt; opens(&mut drawer));
    assert_eq!(rt; drawer.asks(), 3);
}

#[test]
fn calls_with_nothing_to_do_order_too(rt: HostRuntime) -> Result<(), Fail> {
    let mut display = Recorder::new(PlainDisplay::new(rt.alloc(), 2, 4)?);
    let empty = Bytes::from_slice(rt.alloc(), b"")?;
    let steps = [
        Step::Asked(Call::DisplayText(empty, 0)),
        Step::Asked(Call::ScrollText(1, 0)),
    ];
    played(rt.alloc(), &mut display, &steps, &[])?;
    assert_eq!(rt; display.asks(), 2);
    Ok(())
}

#[test]
fn calls_with_nothing_to_print_order_nothing(rt: HostRuntime) -> Result<(), Fail> {
    let mut printer = Recorder::new(RollPrinter::new(rt.alloc(), 8, 5, 2));
    let steps = [
        Step::Asked(Call::CutPaper(0)),
        Step::Asked(Call::ClearOutput),
    ];
    played(rt.alloc(), &mut printer, &steps, &[])?;
    assert_eq!(rt; printer.asks(), 0);
    Ok(())
}

/// A blinking text from a place on.
fn text(alloc: Global, row: u32, column: u32, bytes: &[u8]) -> Result<Order, NoMemory> {
    Ok(Order::ShowText {
        row,
        column,
        attribute: Attribute::Blink,
        bytes: Bytes::from_slice(alloc, bytes)?,
    })
}

fn scroll(direction: Direction, units: u32) -> Order {
    Order::Scroll { direction, units }
}

/// Orders that scroll a display of 3 rows of 4 columns to every side.
fn scrolling_orders(alloc: Global) -> Result<[Order; 6], NoMemory> {
    let (down, left) = (scroll(Direction::Down, 1), scroll(Direction::Left, 1));
    let (up, right) = (scroll(Direction::Up, 2), scroll(Direction::Right, 3));
    let long = text(alloc, 0, 1, b"ABCDEFGHIJKLMN\nOP")?;
    let last = text(alloc, 2, 4, b"QR\rS")?;
    Ok([long, down, left, last, up, right])
}

/// What a display shows, once it was given an order.
fn shown_after<P: Peripheral>(display: &mut P, order: &Order) -> Option<Snapshot> {
    match display.ask(order) {
        Ok(Reply::Done) => display.snapshot().ok(),
        _ => None,
    }
}

/// Whether two displays show the same.
fn shows_same(one: Option<&Snapshot>, other: Option<&Snapshot>) -> bool {
    match (one, other) {
        (Some(Snapshot(one)), Some(Snapshot(other))) => match (&one.mechanism, &other.mechanism) {
            (Mechanism::Display(one), Mechanism::Display(other)) => one.as_slice()
                == other.as_slice(),
            _ => false,
        },
        _ => false,
    }
}

#[test]
fn a_ring_shows_what_a_plain_display_shows(rt: HostRuntime) -> Result<(), Fail> {
    let mut plain = PlainDisplay::new(rt.alloc(), 3, 4)?;
    let mut ring = RingDisplay::new(rt.alloc(), 3, 4)?;
    for order in &scrolling_orders(rt.alloc())? {
        let (one, other) = (
            shown_after(&mut plain, order),
            shown_after(&mut ring, order),
        );
        assert!(rt; shows_same(one.as_ref(), other.as_ref()));
    }
    Ok(())
}
