//! The move of the files to layout 2, from one whole store to the next.
ghost use Rattle.pos_store.specs.Migrations.{Migrates};
ghost use Rattle.pos_store.specs.StoreViews.{HasItsFiles, view_of};

use crate::fault::StoreFault;
use crate::medium::{StoreMedium, turn_off};
use crate::recoveries::limits_of;
use pos_dir::encode;
use pos_dir::laws::wider_directory;
use pos_disk::Disk;
use pos_image::{ImageFault, Layout};
use std::alloc::Global;

/// Moves the files of a disk of layout 1 to layout 2: the first image of layout 2 has them.
///
/// # Errors
///
/// - `Off` if the store is off.
/// - `AlreadyLayout2` if the disk has layout 2.
/// - `NoMemory` if memory ran out.
/// - `Device` if the disk failed. The store is off then.
pub(crate) fn migrate_files<D: Disk>(
    medium: StoreMedium<D>,
    alloc: Global,
) -> (StoreMedium<D>, Result<(), StoreFault>)
    requires sound { HasItsFiles D.Disk medium }
    ensures sound { HasItsFiles D.Disk result.0 }
    ensures migrates { Migrates D.Disk (view_of medium) result.1 (view_of result.0) }
{
    let (mut log, mut directory) = match medium {
        StoreMedium::Off(disk, layout) => return (
            StoreMedium::Off(disk, layout),
            Err(StoreFault::Off),
        ),
        StoreMedium::Ready(log, directory) => (log, directory),
    };
    if log.layout() == Layout::Layout2 {
        return (
            StoreMedium::Ready(log, directory),
            Err(StoreFault::AlreadyLayout2),
        );
    }
    let Ok(body) = encode(alloc, &directory) else {
        return (
            StoreMedium::Ready(log, directory),
            Err(StoreFault::NoMemory),
        );
    };
    wider_directory();
    match log.migrate(body) {
        Ok(()) => {
            directory.widen(limits_of(Layout::Layout2));
            (StoreMedium::Ready(log, directory), Ok(()))
        }
        Err(fault) => match fault {
            ImageFault::Device => (turn_off(log), Err(StoreFault::Device)),
            ImageFault::NoMemory => (
                StoreMedium::Ready(log, directory),
                Err(StoreFault::NoMemory),
            ),
            _ => unreachable!(),
        },
    }
}
