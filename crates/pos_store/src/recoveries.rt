//! A recovery of the files, from one whole store to the next.
ghost use Rattle.std.specs.Prelude.{◌≡◌, ◌⊎◌, List, length, map, OnOk, OnErr, IfErr, IsErrOf};
ghost use Rattle.pos_dir.specs.declared.file.File.{File};
ghost use Rattle.pos_store.specs.StoreViews.{HasItsFiles, view_of};
ghost use Rattle.pos_store.specs.Recoveries.{Recovers};
ghost use Rattle.pos_store.specs.Standing.{Applies, IsStep};
ghost use Rattle.pos_store.specs.Layouts.{limits_of};

use crate::fault::{StoreFault, fault_of_group, fault_of_images, fault_of_log};
use crate::medium::StoreMedium;
use pos_dir::{
    Directory, DirectoryFault, LAYOUT_1, LAYOUT_2, Limits, apply_group, decode, decode_group,
};
use pos_disk::Disk;
use pos_image::{Images, Layout};
use pos_log::Log;
use std::alloc::Global;

// Applies the group that a text spells. The text is damaged if it spells no group that is applicable and not empty.
fn apply_text(alloc: Global, directory: &mut Directory, text: &[u8]) -> Result<(), StoreFault>
    ensures ok { OnOk result (IsStep directory.old.limits directory.old.files text.now directory.new.files) }
    ensures limits { directory.new.limits ≡ directory.old.limits }
    ensures damaged { IfErr result (λ e. e ≡ StoreFault.Damaged
        → (next : List File) → ¬ (IsStep directory.old.limits directory.old.files text.now next)) }
    ensures faults { IfErr result (λ e. (e ≡ StoreFault.Damaged) ⊎ (e ≡ StoreFault.NoMemory)) }
{
    let group = match decode_group(alloc, text) {
        Ok(group) => group,
        Err(DirectoryFault::Malformed) => return Err(StoreFault::Damaged),
        Err(_) => return Err(StoreFault::NoMemory),
    };
    if group.len() == 0 {
        return Err(StoreFault::Damaged);
    }
    match apply_group(alloc, directory, &group) {
        Ok(()) => Ok(()),
        Err(fault) => Err(fault_of_group(fault)),
    }
}

// Applies the groups that texts spell, in order.
fn apply_texts(
    alloc: Global,
    directory: &mut Directory,
    texts: &[Vec<u8>],
) -> Result<(), StoreFault>
    ensures ok { OnOk result
        (Applies directory.old.limits directory.old.files (map (λ t. t.items) texts.now) directory.new.files) }
    ensures limits { directory.new.limits ≡ directory.old.limits }
    ensures damaged { IfErr result (λ e. e ≡ StoreFault.Damaged
        → (last : List File)
        → ¬ (Applies directory.old.limits directory.old.files (map (λ t. t.items) texts.now) last)) }
    ensures faults { IfErr result (λ e. (e ≡ StoreFault.Damaged) ⊎ (e ≡ StoreFault.NoMemory)) }
{
    for text in texts {
        match apply_text(alloc, directory, text) {
            Ok(()) => {}
            Err(fault) => return Err(fault),
        }
    }
    Ok(())
}

/// Recovers the files of a disk. A store that is ready has them already.
///
/// # Errors
///
/// - `Unformatted` if the disk has no image, or fewer than 327,680 bytes.
/// - `Damaged` if the image, its body or a record after it isn't sound.
/// - `NoMemory` if memory ran out.
/// - `Device` if the disk failed.
///
/// The store is still off then.
pub(crate) fn recover_files<D: Disk>(
    medium: StoreMedium<D>,
    alloc: Global,
) -> (StoreMedium<D>, Result<(), StoreFault>)
    requires sound { HasItsFiles D.Disk medium }
    ensures sound { HasItsFiles D.Disk result.0 }
    ensures recovers { Recovers D.Disk (view_of medium) result.1 (view_of result.0) }
{
    let (disk, layout) = match medium {
        StoreMedium::Off(disk, layout) => (disk, layout),
        StoreMedium::Ready(log, directory) => return (StoreMedium::Ready(log, directory), Ok(())),
    };
    let images = match Images::open(alloc, disk) {
        Ok(images) => images,
        Err((fault, disk)) => return (StoreMedium::Off(disk, layout), Err(fault_of_images(fault))),
    };
    let limits = limits_of(images.layout());
    let mut directory = match decode(alloc, images.body(), limits) {
        Ok(directory) => directory,
        Err(DirectoryFault::Malformed) => {
            return (
                StoreMedium::Off(images.into_disk(), layout),
                Err(StoreFault::Damaged),
            );
        }
        Err(_) => return (
            StoreMedium::Off(images.into_disk(), layout),
            Err(StoreFault::NoMemory),
        ),
    };
    match Log::open(alloc, images) {
        Ok((log, texts)) => match apply_texts(alloc, &mut directory, &texts) {
            Ok(()) => (StoreMedium::Ready(log, directory), Ok(())),
            Err(fault) => (
                StoreMedium::Off(log.into_images().into_disk(), layout),
                Err(fault),
            ),
        },
        Err((fault, images)) => (
            StoreMedium::Off(images.into_disk(), layout),
            Err(fault_of_log(fault)),
        ),
    }
}

/// Returns the limits of the files on a disk of a layout. docs/reference/totals-file.md, "The layouts".
pub fn limits_of(layout: Layout) -> Limits
    ensures { result ≡ limits_of layout }
{
    match layout {
        Layout::Layout1 => LAYOUT_1,
        Layout::Layout2 => LAYOUT_2,
    }
}
