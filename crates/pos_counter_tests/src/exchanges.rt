//! The very peripherals are handed back: a driver that is mute is known by that.
ghost use Rattle.std.specs.Prelude.{◌≡◌, false};
ghost use Rattle.pos_counter.specs.Counters.{IsCounterSound};

use crate::counters::{serve, vacant};
use crate::drivers::Wanting;
use pos_counter::{Counter, Ended};
use pos_disk::Disk;
use pos_image::new_disk;
use pos_profile::{Slot, end_all};
use pos_service::{AttachFault, DetachFault, Peripheral, PeripheralBox};
use pos_sims::{PlainDrawer, PlainScanner};
use std::test::Fail;

/// Offers a drawer to a device: why it is refused, if so, and whether what is handed back is mute, which `d1` gets.
fn offer<D: Disk>(
    counter: &mut Counter<D, PeripheralBox>,
    name: &[u8],
    drawer: PeripheralBox,
) -> Option<(AttachFault, bool)>
    requires sound { IsCounterSound ⟦<PeripheralBox as Peripheral>⟧ counter.old }
    requires unparked { (⟦<PeripheralBox as Peripheral>⟧.state drawer).is_parked ≡ false }
    ensures { IsCounterSound ⟦<PeripheralBox as Peripheral>⟧ counter.new }
{
    match counter.attach(name, drawer) {
        Ok(()) => None,
        Err((fault, given)) => {
            let is_mute = given.snapshot().is_err();
            serve(counter, b"d1", given);
            Some((fault, is_mute))
        }
    }
}

/// Detaches a peripheral: why it isn't handed out, or whether it is mute.
fn detach<D: Disk>(
    counter: &mut Counter<D, PeripheralBox>,
    name: &[u8],
) -> Result<bool, DetachFault>
    requires { IsCounterSound ⟦<PeripheralBox as Peripheral>⟧ counter.old }
    ensures { IsCounterSound ⟦<PeripheralBox as Peripheral>⟧ counter.new }
{
    match counter.detach(name) {
        Ok(peripheral) => Ok(peripheral.snapshot().is_err()),
        Err(fault) => Err(fault),
    }
}

/// Whether the peripheral of the device at a place is mute, and whether it is out of service, if there is one.
fn found_at(entries: &[Slot<PeripheralBox>], place: usize) -> Option<(bool, bool)> {
    let peripheral = entries.get(place)?.peripheral.as_ref()?;
    Some((peripheral.snapshot().is_err(), peripheral.is_parked()))
}

#[test]
fn each_is_handed_back(rt: HostRuntime) -> Result<(), Fail> {
    let drawer = Box::new(rt.alloc(), Wanting::new(PlainDrawer::new(), true))?;
    let scanner = Box::new(rt.alloc(), Wanting::new(PlainScanner::new(), true))?;
    let mut counter = vacant(rt.alloc(), new_disk(rt.alloc())?)?;
    let refused = offer(&mut counter, b"s1", PeripheralBox::new(drawer));
    serve(&mut counter, b"s1", PeripheralBox::new(scanner));
    let (first, second) = (detach(&mut counter, b"s1"), detach(&mut counter, b"s1"));
    let Ended { disk, entries } = counter.shutdown();
    let found = (found_at(&entries, 0), found_at(&entries, 1));
    end_all(entries);
    assert!(rt; refused == Some((AttachFault::KindDiffers, true)));
    assert!(rt; first == Ok(true) && second == Err(DetachFault::Vacant));
    assert!(rt; found == (Some((true, true)), None) && disk.len() == 327_680);
    Ok(())
}
