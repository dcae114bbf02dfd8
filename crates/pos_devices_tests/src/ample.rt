//! With ample memory nothing is refused: no step is taken once more here, and what makes something makes it at once.
use crate::devices::{EVENTS, display_steps, printer_steps, scanner_steps};
use crate::steps::{Step, control, played_with};
use pos_common::{Claims, room_all};
use pos_events::EventQueue;
use pos_output::OutputQueue;
use pos_service::{Call, Category, Code, Event, Input, Locus, Order};
use pos_sims::{PlainDisplay, PlainDrawer, PlainScanner, RingDisplay, RollPrinter};
use std::test::Fail;

#[test]
fn ample_memory_refuses_no_step(rt: HostRuntime) -> Result<(), Fail> {
    let alloc = rt.alloc();
    let drawer = [
        Step::Asked(Call::OpenDrawer),
        Step::Fed(Input::DrawerMoved(false)),
    ];
    let events = [Event::StatusUpdate(1), Event::StatusUpdate(0)];
    played_with(alloc, &mut PlainDrawer::new(), &drawer, &events, true)?;
    let events = [
        Event::Error(Code::Failure, 0, Locus::InputData),
        Event::Data,
    ];
    let scanner = scanner_steps(alloc)?;
    played_with(alloc, &mut PlainScanner::new(), &scanner, &events, true)?;
    let printer = printer_steps(alloc)?;
    let mut roll = RollPrinter::new(alloc, 8, 5, 2);
    played_with(alloc, &mut roll, &printer, &EVENTS, true)?;
    Ok(())
}

#[test]
fn ample_memory_refuses_no_step_of_a_display(rt: HostRuntime) -> Result<(), Fail> {
    let alloc = rt.alloc();
    let display = display_steps(alloc)?;
    played_with(
        alloc,
        &mut PlainDisplay::new(alloc, 2, 4)?,
        &display,
        &[],
        true,
    )?;
    played_with(
        alloc,
        &mut RingDisplay::new(alloc, 2, 4)?,
        &display,
        &[],
        true,
    )?;
    Ok(())
}

#[test]
fn ample_memory_makes_room(rt: HostRuntime) {
    let mut events = EventQueue::new(rt.alloc());
    assert!(rt; events.room(1_000).is_ok());
    let mut controls = [control(rt.alloc(), Category::Scanner)];
    assert!(rt; room_all(&mut controls, 0, 1_000).is_ok());
    assert!(rt; Claims::new(rt.alloc(), 1_000).is_ok());
    let mut output = OutputQueue::starting(rt.alloc(), 1);
    for number in 1..1_001 {
        assert!(rt; matches!(output.put(Order::OpenDrawer), Ok(id) if id == number));
    }
}
