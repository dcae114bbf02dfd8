ghost use Rattle.std.specs.Prelude.{◌≡◌, false, IfOk};
ghost use Rattle.pos_profile.specs.Registries.{IsRegistrySound};

use pos_profile::{Profile, Registry, Slot, end_all};
use pos_service::{NoMemory, Peripheral, PeripheralBox};
use pos_sims::PlainDrawer;
use std::alloc::Global;

/// The registry of the built-in profile, each device vacant. Where it finds no memory it is made once more.
fn built<P: Peripheral>(alloc: Global) -> Result<Registry<P>, NoMemory>
    ensures { IfOk result (λ registry. IsRegistrySound P.Peripheral registry) }
{
    let profile = Profile::built(alloc)?;
    match Registry::new(alloc, &profile, Vec::new(alloc)) {
        Err(NoMemory) => Registry::new(alloc, &profile, Vec::new(alloc)),
        made => made,
    }
}

/// Whether a device gets its peripheral.
fn attaches(registry: &mut Registry<PeripheralBox>, name: &[u8], peripheral: PeripheralBox) -> bool
    requires sound { IsRegistrySound ⟦<PeripheralBox as Peripheral>⟧ registry.old }
    requires unparked { (⟦<PeripheralBox as Peripheral>⟧.state peripheral).is_parked ≡ false }
    ensures { IsRegistrySound ⟦<PeripheralBox as Peripheral>⟧ registry.new }
{
    match registry.attach(name, peripheral) {
        Ok(()) => true,
        Err((_, peripheral)) => {
            peripheral.end();
            false
        }
    }
}

/// Whether a device hands out its peripheral, which ends.
fn detaches(registry: &mut Registry<PeripheralBox>, name: &[u8]) -> bool
    requires { IsRegistrySound ⟦<PeripheralBox as Peripheral>⟧ registry.old }
    ensures { IsRegistrySound ⟦<PeripheralBox as Peripheral>⟧ registry.new }
{
    match registry.detach(name, false) {
        Ok(peripheral) => {
            peripheral.end();
            true
        }
        Err(_) => false,
    }
}

/// How many slots have a peripheral that is out of service.
fn count_parked(slots: &[Slot<PeripheralBox>]) -> usize {
    let mut parked: usize = 0;
    for slot in slots {
        if let Some(peripheral) = &slot.peripheral {
            parked = parked.saturating_add(usize::from(peripheral.is_parked()));
        }
    }
    parked
}

#[test]
fn a_drawer_is_exchanged(rt: HostRuntime) {
    let mut registry = built(rt.alloc()).expect(&rt, "ample memory");
    let first = Box::new(rt.alloc(), PlainDrawer::new()).expect(&rt, "ample memory");
    let first: Box<dyn Peripheral + Drop> = first;
    let second = Box::new(rt.alloc(), PlainDrawer::new()).expect(&rt, "ample memory");
    let second: Box<dyn Peripheral + Drop> = second;
    let attached = attaches(&mut registry, b"d1", PeripheralBox::new(first));
    let detached = detaches(&mut registry, b"d1");
    let attached_then = attaches(&mut registry, b"d1", PeripheralBox::new(second));
    let entries = registry.into_entries();
    let parked = count_parked(&entries);
    end_all(entries);
    assert_eq!(rt;
        (attached, detached, attached_then, parked),
        (true, true, true, 1)
    );
}
