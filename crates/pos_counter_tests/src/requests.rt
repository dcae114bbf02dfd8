//! Each kind of request over drivers that find no memory for each other order or input: it is refused, and done when
//! it is made once more.

use crate::counters::{serve, text_of, vacant};
use crate::drivers::Wanting;
use pos_counter::{ControlFault, InputFault, SnapshotFault, WorkFault};
use pos_disk::MemDisk;
use pos_image::new_disk;
use pos_service::PeripheralBox;
use pos_sims::{PlainDisplay, PlainDrawer, PlainScanner, RollPrinter};
use std::alloc::{AllocError, Global};
use std::test::Fail;

/// A drawer, a scanner, a display and a printer, each with its calls, and then the calls of Hard Totals.
const SCRIPT: &[u8] =
    b"new a CashDrawer\nopen a d1\nset a DeviceEnabled true\nget a DrawerOpened\ncall a openDrawer\n\
    get a DrawerOpened\ndeliver a\ncall a openDrawer\nget a DrawerOpened\ninput d1 closed\nget a DrawerOpened\n\
    input d1 closed\nget a DrawerOpened\ndeliver a\ndeliver a\ndeliver a\nshow d1\nclaim a 0\nrelease a\nwork d1\n\
    close a\nget a State\n\
    new b Scanner\nopen b s1\nclaim b 0\nset b DeviceEnabled true\nset b DataEventEnabled true\n\
    set b DecodeData true\ninput s1 scan 104 41 42\nget b DataCount\ninput s1 scan 104 41 42\nget b DataCount\n\
    deliver b\nget b ScanData\nget b ScanDataLabel\ninput s1 fault\nget b State\ninput s1 fault\nget b State\n\
    call b clearInput\nget b State\ncall b clearInputProperties\nget b ScanData\nshow s1\n\
    new c LineDisplay\nopen c p1\nclaim c 0\nset c DeviceEnabled true\ncall c displayText 4142 0\n\
    get c CursorColumn\nshow p1\ncall c displayText 4142 0\nget c CursorColumn\ncall c displayTextAt 1 0 43 2\n\
    get c CursorRow\ncall c displayTextAt 1 0 43 2\nget c CursorRow\nshow p1\ncall c scrollText 3 1\n\
    call c scrollText 3 1\nshow p1\ncall c clearText\nget c CursorRow\ncall c clearText\nget c CursorRow\nshow p1\n\
    new d POSPrinter\nopen d r1\nclaim d 0\nset d DeviceEnabled true\ncall d printNormal 2 410a\nshow r1\n\
    call d printNormal 2 410a\ncall d printImmediate 2 42\ncall d printImmediate 2 42\ncall d cutPaper 50\n\
    call d cutPaper 50\nshow r1\nset d AsyncMode true\ncall d printNormal 2 43\nget d OutputID\nwork r1\n\
    get d State\nwork r1\nget d State\ndeliver d\ninput r1 cover open\ninput r1 cover open\ndeliver d\n\
    input r1 paper 9\ninput r1 paper 9\ncall d cutPaper 7\ncall d clearOutput\nwork r1\nshow r1\n\
    new e HardTotals\nopen e t1\nset e DeviceEnabled true\ncall e create 41 4 true\ncall e find 41\n\
    call e findByIndex 0\ncall e write 1 0 deadbeef\ncall e setAll 1 7\ncall e read 1 0 4\ncall e rename 1 42\n\
    call e claimFile 1 0\ncall e releaseFile 1\ncall e beginTrans\ncall e write 1 1 08\ncall e setAll 1 9\n\
    get e TransactionInProgress\ncall e commitTrans\ncall e beginTrans\ncall e rollback\ncall e read 1 0 4\n\
    get e FreeData\nget e TotalsSize\nget e NumberOfFiles\ncall e delete 42\ncall e find 42\nshow t1\n";

const TEXT: &[u8] =
    b"ok\nok\nok\nok false\nmemory\nok false\nnone\nok\nok true\nmemory\nok true\nok\nok false\n\
    event StatusUpdateEvent 1\nevent StatusUpdateEvent 0\nnone\nmemory\nok\nok\nidle\nok\nok 1\n\
    ok\nok\nok\nok\nok\nok\nmemory\nok 0\nok\nok 1\nevent DataEvent 0\nok 41\nok 42\nmemory\nok 2\nok\nok 4\nok\n\
    ok 2\nok\nok -\nok\n\
    ok\nok\nok\nok\nmemory\nok 0\nok 2020202020202020 00000000\nok\nok 2\nmemory\nok 0\nok\nok 1\n\
    ok 4142202043202020 00002000\nmemory\nok\nok 4220202020202020 00000000\nmemory\nok 1\nok\nok 0\n\
    ok 2020202020202020 00000000\n\
    ok\nok\nok\nok\nmemory\nok closed 5 -:-\nok\nmemory\nok\nmemory\nok\nok closed 3 -:- l:41:0 l:42:0 x:50\nok\nok\n\
    ok 1\nmemory\nok 3\ndone 1\nok 2\nevent OutputCompleteEvent 1\nmemory\nok\nevent StatusUpdateEvent 11\nmemory\n\
    ok\nok\nok\nidle\nok open 9 43:0 l:41:0 l:42:0 x:50\n\
    ok\nok\nok\nok 1\nok 1 4\nok 41\nok\nok\nok 07070707\nok\nok\nok\nok\nok\nok\nok true\nok\nok\nok\nok 09090909\n\
    ok 8188\nok 8192\nok 1\nok\nerr 109\nbad device\n";

/// A disk with no files. What is proved of it isn't wanted here, where devices alone are.
fn formatted(alloc: Global) -> Result<MemDisk, AllocError> {
    new_disk(alloc)
}

#[test]
fn each_kind_of_request_is_refused_without_memory(rt: HostRuntime) -> Result<(), Fail> {
    let alloc = rt.alloc();
    let drawer = Box::new(alloc, Wanting::new(PlainDrawer::new(), true))?;
    let scanner = Box::new(alloc, Wanting::new(PlainScanner::new(), false))?;
    let display = Box::new(alloc, Wanting::new(PlainDisplay::new(alloc, 2, 4)?, false))?;
    let printer = Box::new(alloc, Wanting::new(RollPrinter::new(alloc, 8, 5, 2), false))?;
    let mut counter = vacant(alloc, formatted(alloc)?)?;
    serve(&mut counter, b"d1", PeripheralBox::new(drawer));
    serve(&mut counter, b"s1", PeripheralBox::new(scanner));
    serve(&mut counter, b"p1", PeripheralBox::new(display));
    serve(&mut counter, b"r1", PeripheralBox::new(printer));
    let text = text_of(alloc, &mut counter, SCRIPT);
    counter.shutdown().end();
    assert_eq!(rt; text.as_slice(), TEXT);
    Ok(())
}

#[test]
fn faults_have_texts(rt: HostRuntime) -> Result<(), Fail> {
    let text = format!(in rt.alloc();
        "{}; {}; {}; {}; {}; {}; {}; {}; {}",
        ControlFault::Full,
        InputFault::WrongInput,
        InputFault::NoDevice,
        WorkFault::NoDevice,
        SnapshotFault::NoDevice,
        ControlFault::NoMemory,
        InputFault::NoMemory,
        WorkFault::NoMemory,
        SnapshotFault::NoMemory
    )?;
    let want =
        "there are as many controls as there may be; the device has no such input; there is no such device; \
        there is no such device; there is no such device; no memory; no memory; no memory; no memory";
    assert_eq!(rt; text.as_str(), want);
    Ok(())
}
