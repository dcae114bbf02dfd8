use crate::steps::{NEW_SIGNS, Step, control, played, tells};
use pos_common::Control;
use pos_service::display_text::DisplayCell;
use pos_service::receipt_text::{Alignment, Mark, PrintedCharacter};
use pos_service::{
    Answer, Bytes, Call, Category, Code, Event, Input, Locus, Mechanism, NoMemory, PaperLevel,
    Property, Signs, Snapshot, Value,
};
use pos_sims::{PlainDisplay, PlainDrawer, PlainScanner, RollPrinter};
use std::alloc::Global;
use std::test::Fail;

/// What a peripheral that is on is by its kind.
fn mechanism_of(shown: &Snapshot) -> Option<&Mechanism> {
    if shown.0.powered {
        Some(&shown.0.mechanism)
    } else {
        None
    }
}

#[test]
fn a_drawer_opens_and_is_shut(rt: HostRuntime) -> Result<(), Fail> {
    let mut drawer = PlainDrawer::new();
    let steps = [
        Step::Asked(Call::OpenDrawer),
        Step::Fed(Input::DrawerMoved(false)),
        Step::Asked(Call::OpenDrawer),
    ];
    let (opened, shut) = (Event::StatusUpdate(1), Event::StatusUpdate(0));
    let events = [opened, shut, opened];
    let shown = played(rt.alloc(), &mut drawer, &steps, &events)?;
    assert!(rt; matches!(mechanism_of(&shown), Some(Mechanism::Drawer(true))));
    Ok(())
}

#[test]
fn a_control_is_told_of_its_devices_power(rt: HostRuntime) -> Result<(), Fail> {
    let mut drawer = PlainDrawer::new();
    let steps = [
        Step::Set(Property::DeviceEnabled, Value::Truth(false)),
        Step::Set(Property::PowerNotify, Value::Number(1)),
        Step::Set(Property::DeviceEnabled, Value::Truth(true)),
        Step::Fed(Input::PowerMoved(false)),
        Step::Fed(Input::DrawerMoved(true)),
        Step::Set(Property::DeviceEnabled, Value::Truth(true)),
        Step::Set(Property::PowerNotify, Value::Number(1)),
        Step::Fed(Input::PowerMoved(true)),
        Step::Asked(Call::OpenDrawer),
    ];
    let (on, off) = (Event::StatusUpdate(2001), Event::StatusUpdate(2004));
    let events = [on, off, on, Event::StatusUpdate(1)];
    let shown = played(rt.alloc(), &mut drawer, &steps, &events)?;
    assert!(rt; matches!(mechanism_of(&shown), Some(Mechanism::Drawer(true))));
    Ok(())
}

/// Sets these properties of the control with the number 0, which holds its device. Whether all are done.
fn sets(control: &mut Control, properties: [(Property, Value); 3]) -> bool {
    let mut all = true;
    for (property, value) in &properties {
        let set = control.set(0, Some(0), None, NEW_SIGNS, *property, value);
        all = all && matches!(set, Ok(Answer::Done(_)));
    }
    all
}

/// All signs of a device that differ from those of a new one.
const OTHER_SIGNS: Signs = Signs {
    powered: false,
    drawer_open: true,
    cover_open: true,
    paper: PaperLevel::Empty,
};

#[test]
fn signs_that_change_at_once_are_told_in_order(rt: HostRuntime) {
    let mut drawer = control(rt.alloc(), Category::CashDrawer);
    let properties = [
        (Property::DeviceEnabled, Value::Truth(false)),
        (Property::PowerNotify, Value::Number(1)),
        (Property::DeviceEnabled, Value::Truth(true)),
    ];
    assert!(rt; sets(&mut drawer, properties));
    assert!(rt; tells(&mut drawer, &[Event::StatusUpdate(2001)]));
    assert!(rt; drawer.room_for(0, 4).is_ok());
    drawer.hear(0, NEW_SIGNS, OTHER_SIGNS);
    let changes = [1, 11, 24, 2004].map(Event::StatusUpdate);
    assert!(rt; tells(&mut drawer, &changes));
}

#[test]
fn a_closed_control_is_delivered_nothing(rt: HostRuntime) {
    let mut drawer = control(rt.alloc(), Category::CashDrawer);
    assert!(rt; drawer.room_for(0, 4).is_ok());
    drawer.hear(0, NEW_SIGNS, OTHER_SIGNS);
    assert!(rt; drawer.has_deliverable());
    assert!(rt; matches!(drawer.close(), Answer::Done(_)));
    assert!(rt; !drawer.has_deliverable());
    assert!(rt; tells(&mut drawer, &[]));
}

/// A scan and a fault, behind which the last scan is cleared.
pub fn scanner_steps(alloc: Global) -> Result<[Step; 3], NoMemory> {
    let scan = Input::Scan {
        kind: 104,
        bytes: Bytes::from_slice(alloc, b"AB")?,
        label: Bytes::from_slice(alloc, b"B")?,
    };
    let (fault, clear) = (Input::ScanFault, Call::ClearInputProperties);
    Ok([Step::Fed(scan), Step::Fed(fault), Step::Asked(clear)])
}

#[test]
fn a_scan_and_a_fault_reach_the_control(rt: HostRuntime) -> Result<(), Fail> {
    let steps = scanner_steps(rt.alloc())?;
    let mut scanner = PlainScanner::new();
    let events = [
        Event::Error(Code::Failure, 0, Locus::InputData),
        Event::Data,
    ];
    let shown = played(rt.alloc(), &mut scanner, &steps, &events)?;
    assert!(rt; matches!(mechanism_of(&shown), Some(Mechanism::Scanner)));
    Ok(())
}

/// Each call of a display.
pub fn display_steps(alloc: Global) -> Result<[Step; 4], NoMemory> {
    let text = Call::DisplayText(Bytes::from_slice(alloc, b"ABCDEFGHI")?, 2);
    let letter = Call::DisplayTextAt(0, 1, Bytes::from_slice(alloc, b"J")?, 0);
    let (clear, scroll) = (Call::ClearText, Call::ScrollText(4, 1));
    Ok([
        Step::Asked(clear),
        Step::Asked(text),
        Step::Asked(letter),
        Step::Asked(scroll),
    ])
}

/// Whether a display shows these characters, row by row.
fn has_characters(display: &Snapshot, characters: &[u8]) -> bool {
    let Some(Mechanism::Display(cells)) = mechanism_of(display) else {
        return false;
    };
    let shown = cells.as_slice().iter();
    shown
        .map(|cell: &DisplayCell| cell.character)
        .eq(characters.iter().copied())
}

#[test]
fn a_display_shows_what_is_asked(rt: HostRuntime) -> Result<(), Fail> {
    let steps = display_steps(rt.alloc())?;
    let mut display = PlainDisplay::new(rt.alloc(), 2, 4)?;
    let shown = played(rt.alloc(), &mut display, &steps, &[])?;
    assert!(rt; has_characters(&shown, b" EJG I  "));
    Ok(())
}

/// Requests of a printer, of which two wait, work on these, and its inputs.
pub fn printer_steps(alloc: Global) -> Result<[Step; 8], NoMemory> {
    let later = Call::PrintNormal(2, Bytes::from_slice(alloc, b"J\n")?);
    let sooner = Call::PrintImmediate(2, Bytes::from_slice(alloc, b"ABCDEFGHI\x1b|cA\n")?);
    Ok([
        Step::Asked(later),
        Step::Asked(Call::CutPaper(50)),
        Step::Asked(sooner),
        Step::Fed(Input::CoverMoved(true)),
        Step::Fed(Input::CoverMoved(false)),
        Step::Worked,
        Step::Worked,
        Step::Fed(Input::PaperLoaded(100)),
    ])
}

/// Whether a printer has printed these lines, cuts and characters.
fn has_printed(printer: &Snapshot, marks: &[Mark], bytes: &[u8]) -> bool {
    let Some(Mechanism::Printer(receipt)) = mechanism_of(printer) else {
        return false;
    };
    let (told, characters) = receipt.printed();
    let characters = characters.iter().map(|c: &PrintedCharacter| c.byte);
    told == marks && characters.eq(bytes.iter().copied())
}

/// What a printer's control delivers after those steps: the cover is opened and closed, the paper is near its end, two
/// requests are done, and paper is put in.
pub const EVENTS: [Event; 6] = [
    Event::StatusUpdate(11),
    Event::StatusUpdate(12),
    Event::StatusUpdate(25),
    Event::OutputComplete(1),
    Event::OutputComplete(2),
    Event::StatusUpdate(26),
];

#[test]
fn a_printer_prints_what_is_asked_and_queued(rt: HostRuntime) -> Result<(), Fail> {
    let steps = printer_steps(rt.alloc())?;
    let mut printer = RollPrinter::new(rt.alloc(), 8, 5, 2);
    let shown = played(rt.alloc(), &mut printer, &steps, &EVENTS)?;
    let (full, centred) = (
        Mark::Line(Alignment::Left, 8),
        Mark::Line(Alignment::Center, 1),
    );
    let marks = [full, centred, Mark::Line(Alignment::Left, 1), Mark::Cut(50)];
    assert!(rt; has_printed(&shown, &marks, b"ABCDEFGHIJ"));
    Ok(())
}
