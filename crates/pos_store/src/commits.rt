//! A change of the files, from one whole store to the next.
ghost use Rattle.std.specs.Prelude.{◌≡◌, ◌<◌, Ok, OnErr, IsOk, MatchResult, length};
ghost use Rattle.pos_dir.specs.Changes.{outcome_of_all, IsGroup};
ghost use Rattle.pos_image.specs.Layout.{layout_of};
ghost use Rattle.pos_log.specs.Logs.{IsLogReady};
ghost use Rattle.pos_store.specs.Commits.{Commits, IsApplicable, IsDraft, IsUnmade};
ghost use Rattle.pos_store.specs.Layouts.{limits_of};
ghost use Rattle.pos_store.specs.StoreViews.{HasItsFiles, view_of};

use crate::fault::StoreFault;
use crate::medium::{StoreMedium, fail};
use pos_dir::{
    Change, Directory, apply_and_encode, apply_applicable, encode_changes, measure_group,
};
use pos_disk::Disk;
use pos_log::Log;
use std::alloc::Global;

// Applies an applicable group to the files, and makes what goes to the disk for it: the text of its record if that fits
// after the log, else the body of a new image. It doesn't use the disk, and takes all the memory of the commit.
fn make_draft<D: Disk>(
    alloc: Global,
    log: &Log<D>,
    directory: &mut Directory,
    text: &mut Vec<u8>,
    changes: &[Change<'_>],
) -> Result<Draft, StoreFault>
    requires ready { IsLogReady D.Disk log.now }
    requires limits { directory.old.limits ≡ limits_of (layout_of log.now.images.slot) }
    requires group { IsGroup changes.now }
    requires applicable { IsOk (outcome_of_all directory.old.limits directory.old.files changes.now) }
    ensures made { MatchResult result
        (λ draft. (outcome_of_all directory.old.limits directory.old.files changes.now ≡ Ok directory.new.files)
        × IsDraft (layout_of log.now.images.slot) log.now.tail changes.now log.now.images.sequence
        directory.new.files text.new.items draft)
        (λ fault. IsUnmade (layout_of log.now.images.slot) log.now.tail changes.now log.now.images.sequence
        fault) }
    ensures limits { directory.new.limits ≡ directory.old.limits }
    ensures unchanged { OnErr result (directory.new ≡ directory.old) }
{
    if !log.fits(measure_group(changes)) {
        if log.sequence() == u64::MAX {
            return Err(StoreFault::Exhausted);
        }
        return match apply_and_encode(alloc, directory, changes) {
            Ok(body) => Ok(Draft::Image(body)),
            Err(_) => Err(StoreFault::NoMemory),
        };
    }
    if encode_changes(text, changes).is_err() {
        return Err(StoreFault::NoMemory);
    }
    match apply_applicable(alloc, directory, changes) {
        Ok(()) => Ok(Draft::Record),
        Err(_) => Err(StoreFault::NoMemory),
    }
}

/// Commits a group that is applicable, in place: its record goes after the current image if it fits there, else a new
/// image has the files after it. The buffer `text` gets the text of the record.
///
/// # Errors
///
/// - `Off` if the store is off.
/// - `NoMemory` if memory ran out.
/// - `Exhausted` if the group needs a new image and the sequence is the last one.
/// - `Device` if the disk failed. The store is off then.
pub(crate) fn commit_group<D: Disk>(
    medium: &mut StoreMedium<D>,
    alloc: Global,
    text: &mut Vec<u8>,
    changes: &[Change<'_>],
) -> Result<(), StoreFault>
    requires sound { HasItsFiles D.Disk medium.old }
    requires some { 0 < length changes.now }
    requires group { IsGroup changes.now }
    requires applicable { IsApplicable (view_of medium.old).layout (view_of medium.old).state changes.now }
    ensures sound { HasItsFiles D.Disk medium.new }
    ensures commits { Commits D.Disk (view_of medium.old) changes.now result (view_of medium.new) }
{
    let (log, directory) = match medium {
        StoreMedium::Off(_, _) => return Err(StoreFault::Off),
        StoreMedium::Ready(log, directory) => (log, directory),
    };
    match make_draft(alloc, log, directory, text, changes) {
        Ok(Draft::Record) => match log.append_fitting(text) {
            Ok(()) => Ok(()),
            Err(_) => Err(fail(medium)),
        },
        Ok(Draft::Image(body)) => match log.renew(body) {
            Ok(()) => Ok(()),
            Err(_) => Err(fail(medium)),
        },
        Err(fault) => Err(fault),
    }
}

/// What goes to the disk for a group.
#[derive(Drop)]
pub(crate) enum Draft {
    /// A record after the current image, which fits there. Its text is in the buffer.
    Record,
    /// The files after the group, as the body of a new image.
    Image(Vec<u8>),
}
