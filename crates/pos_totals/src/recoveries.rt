//! A recovery of the files, from the disk to their handles.
ghost use Rattle.std.specs.Prelude.{◌≡◌, Some, IsSome};
ghost use Rattle.pos_store.specs.StoreViews.{Off, mode_of};
ghost use Rattle.pos_totals.specs.Recoveries.{Recovers, told_as};
ghost use Rattle.pos_totals.specs.Views.{IsSound, view_of};

use crate::fault::RecoveryFault;
use crate::totals::Holdings;
use core::mem::replace_with;
use pos_dir::laws::is_directory;
use pos_disk::Disk;
use pos_image::Layout;
use pos_store::laws::leaves_its_files;
use pos_store::{Mode, Store, StoreFault};
use std::alloc::Global;

/// Recovers the files of totals that are off, and gives them handles. Totals that are ready have them already.
///
/// # Errors
///
/// - `Unformatted`, `Damaged` or `Device` if the store finds no files for this reason.
/// - `NoMemory` if memory ran out.
/// - `Handles` if there are more files than handles left.
///
/// The totals are still off then.
pub(crate) fn recover<D: Disk>(
    alloc: Global,
    store: &mut Store<D>,
    holdings: &mut Holdings,
) -> Result<(), RecoveryFault>
    requires sound { IsSound store.old.layout store.old.state holdings.old }
    ensures sound { IsSound store.new.layout store.new.state holdings.new }
    ensures recovers { Recovers D.Disk (view_of store.old holdings.old) result
        (view_of store.new holdings.new) }
{
    leaves_its_files(store);
    match store.mode() {
        Mode::Ready { sequence: _ } => Ok(()),
        Mode::Off => recover_off(alloc, store, holdings),
    }
}

// Recovers the files of totals that are off, and gives them handles.
fn recover_off<D: Disk>(
    alloc: Global,
    store: &mut Store<D>,
    holdings: &mut Holdings,
) -> Result<(), RecoveryFault>
    requires off { mode_of store.old.state ≡ Mode.Off }
    requires sound { IsSound store.old.layout store.old.state holdings.old }
    ensures sound { IsSound store.new.layout store.new.state holdings.new }
    ensures recovers { Recovers D.Disk (view_of store.old holdings.old) result
        (view_of store.new holdings.new) }
{
    match store.recover() {
        Ok(()) => {}
        Err(fault) => return Err(recovery_fault(fault)),
    }
    let count = match store.files() {
        Some(files) => {
            is_directory(files);
            files.len()
        }
        None => unreachable!(),
    };
    if holdings.handles.number(count) {
        holdings.layout = store.layout();
        return Ok(());
    }
    replace_with(store, alloc, turn_off);
    Err(RecoveryFault::Handles)
}

// Returns the totals' fault for a store that finds no files.
fn recovery_fault(fault: StoreFault) -> RecoveryFault
    requires { IsSome (told_as fault) }
    ensures { told_as fault ≡ Some result }
{
    match fault {
        StoreFault::Unformatted => RecoveryFault::Unformatted,
        StoreFault::Damaged => RecoveryFault::Damaged,
        StoreFault::NoMemory => RecoveryFault::NoMemory,
        StoreFault::Device => RecoveryFault::Device,
        StoreFault::Off
        | StoreFault::Refused(_)
        | StoreFault::Exhausted
        | StoreFault::AlreadyLayout2 => unreachable!(),
    }
}

// Returns a store that is off over the same disk.
fn turn_off<D: Disk>(store: Store<D>, alloc: Global) -> (Store<D>, ())
    ensures { result.0 ≡ record { disk = store.disk; layout = Layout.Layout1; state = Off; tail = 0 } }
{
    (Store::new(alloc, store.into_disk()), ())
}
