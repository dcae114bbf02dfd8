//! Counters over a disk that lies: whatever Hard Totals answer then, the other devices answer as over a true one.

use crate::counters::{serve, text_of, vacant};
use crate::liar::Liar;
use pos_disk::Disk;
use pos_image::new_disk;
use pos_service::PeripheralBox;
use pos_sims::{PlainDisplay, PlainDrawer};
use std::alloc::Global;
use std::test::Fail;

/// Lines of a drawer and of a display, between lines of Hard Totals, whose control is `t`.
const SCRIPT: &str =
    "new t HardTotals\nopen t t1\nnew a CashDrawer\nopen a d1\nset t DeviceEnabled true\n\
    set a DeviceEnabled true\ncall t create 41 4 false\ncall a openDrawer\nget a DrawerOpened\ncall t write 1 0 01\n\
    new c LineDisplay\nopen c p1\nclaim c 0\nset c DeviceEnabled true\ncall t beginTrans\ncall t write 1 1 02\n\
    call c displayText 4142 0\nget c CursorColumn\ncall t commitTrans\nshow p1\nset t DeviceEnabled false\n\
    set t DeviceEnabled true\ninput d1 closed\ndeliver a\ndeliver a\ncall t read 1 0 4\nget t NumberOfFiles\n\
    call t create 42 8 false\ncall t delete 41\ncall c clearText\nshow p1\nget a DrawerOpened\nshow d1\n";

/// Lines that aren't of the control `t`, of those that the script prints.
fn others(alloc: Global, text: &str) -> Result<String, Fail> {
    let mut kept = String::new(alloc);
    let mut answers = text.lines();
    for line in SCRIPT.lines() {
        let Some(answer) = answers.next() else {
            return Err(Fail::new("a line has no answer"));
        };
        if !line.contains(" t ") {
            kept.push_str(answer)?;
            kept.push_str("\n")?;
        }
    }
    if answers.next().is_some() {
        return Err(Fail::new("an answer has no line"));
    }
    Ok(kept)
}

/// What the script prints over a disk.
fn told<D: Disk + Drop>(alloc: Global, disk: D) -> Result<Vec<u8>, Fail> {
    let drawer = Box::new(alloc, PlainDrawer::new())?;
    let display = Box::new(alloc, PlainDisplay::new(alloc, 2, 4)?)?;
    let mut counter = vacant(alloc, disk)?;
    serve(&mut counter, b"d1", PeripheralBox::new(drawer));
    serve(&mut counter, b"p1", PeripheralBox::new(display));
    let text = text_of(alloc, &mut counter, SCRIPT.as_bytes());
    counter.shutdown().end();
    Ok(text)
}

#[test]
fn the_other_devices_answer_as_over_a_true_disk(rt: HostRuntime) -> Result<(), Fail> {
    let alloc = rt.alloc();
    let truth = told(alloc, new_disk(alloc)?)?;
    let truth = str::from_utf8(truth.as_slice()).expect(&rt, "text");
    let wanted = others(alloc, truth)?;
    let mut differ = 0u32;
    let mut created = 0u32;
    for seed in 0..20u64 {
        let text = told(
            alloc,
            Liar::new(new_disk(alloc)?, seed.saturating_add(7), seed),
        )?;
        let text = str::from_utf8(text.as_slice()).expect(&rt, "text");
        assert_eq!(rt; others(alloc, text)?.as_str(), wanted.as_str());
        if text != truth {
            differ = differ.saturating_add(1);
        }
        if text.contains("ok 1\n") {
            created = created.saturating_add(1);
        }
    }
    assert!(rt; differ >= 15 && created >= 15);
    Ok(())
}
