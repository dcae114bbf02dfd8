//! Groups of changes, applied to a directory.
ghost use Rattle.std.specs.Prelude.{◌≡◌, ◌≤◌, length, vec_capacity, Ok, MatchResult, IsOk, IfOk};
ghost use Rattle.std.specs.List.{flat_map};
ghost use Rattle.pos_dir.specs.Files.{IsDirectory};
ghost use Rattle.pos_dir.specs.Changes.{outcome_of_all, IsGroup};
ghost use Rattle.pos_dir.specs.Spelling.{spelling, body_limit};
ghost use Rattle.pos_dir.specs.Calls.{Applies};
ghost use Rattle.pos_dir.specs.Supplies.{supplies_of};

use crate::change::{Change, apply_change};
use crate::directory::Directory;
use crate::encoder::{limit_body, put_directory};
use crate::fault::DirectoryFault;
use crate::file::{File, Limits};
use crate::group::Group;
use crate::laws::{is_directory, is_group};
use crate::outlines::check_group;
use crate::supplies::{Supply, make_supplies, take_supply};
use std::alloc::Global;

/// Applies all changes of a group in order (chapter Hard Totals).
///
/// # Errors
///
/// - `NoFile`, `Exists`, `Range` or `NoRoom`: the fault of the first change that isn't applicable.
/// - `NoMemory` if the group is applicable and memory ran out.
///
/// The directory is unchanged then.
pub fn apply_group(
    alloc: Global,
    directory: &mut Directory,
    group: &Group<'_>,
) -> Result<(), DirectoryFault>
    ensures applied { Applies directory.old group.now result directory.new }
    ensures limits { directory.new.limits ≡ directory.old.limits }
{
    is_group(group);
    check_group(directory, group)?;
    apply_checked(
        alloc,
        directory.limits,
        &mut directory.files,
        group.as_slice(),
    )
}

/// Applies a group of these changes, which is applicable, and returns the one spelling of the files after it, as
/// `encode` does.
///
/// # Errors
///
/// `NoMemory` if memory ran out. The directory is unchanged then.
pub fn apply_and_encode(
    alloc: Global,
    directory: &mut Directory,
    changes: &[Change<'_>],
) -> Result<Vec<u8>, DirectoryFault>
    requires group { IsGroup changes.now }
    requires applicable { IsOk (outcome_of_all directory.old.limits directory.old.files changes.now) }
    ensures outcome { MatchResult result
        (λ _. outcome_of_all directory.old.limits directory.old.files changes.now ≡ Ok directory.new.files)
        (λ fault. (fault ≡ DirectoryFault.NoMemory) × (directory.new ≡ directory.old)) }
    ensures limits { directory.new.limits ≡ directory.old.limits }
    ensures spelled { IfOk result (λ body. body.items ≡ spelling directory.new.files) }
    ensures directory { IsDirectory directory.new.limits directory.new.files }
    ensures length { length (spelling directory.new.files) ≤ body_limit directory.new.limits }
{
    is_directory(directory);
    let mut body = Vec::with_capacity(alloc, limit_body(directory.limits))?;
    apply_checked(alloc, directory.limits, &mut directory.files, changes)?;
    put_directory(&mut body, directory);
    Ok(body)
}

/// Applies a group of these changes, which is applicable, in place. The bytes of files that it doesn't change are
/// neither read nor copied.
///
/// # Errors
///
/// `NoMemory` if memory ran out. The directory is unchanged then.
pub fn apply_applicable(
    alloc: Global,
    directory: &mut Directory,
    changes: &[Change<'_>],
) -> Result<(), DirectoryFault>
    requires group { IsGroup changes.now }
    requires applicable { IsOk (outcome_of_all directory.old.limits directory.old.files changes.now) }
    ensures outcome { MatchResult result
        (λ _. outcome_of_all directory.old.limits directory.old.files changes.now ≡ Ok directory.new.files)
        (λ fault. (fault ≡ DirectoryFault.NoMemory) × (directory.new ≡ directory.old)) }
    ensures limits { directory.new.limits ≡ directory.old.limits }
{
    is_directory(directory);
    apply_checked(alloc, directory.limits, &mut directory.files, changes)
}

/// Applies a group of these changes, which is applicable, in place. Want of memory is the only refusal, and comes
/// before anything is changed.
fn apply_checked(
    alloc: Global,
    limits: Limits,
    files: &mut Vec<File>,
    changes: &[Change<'_>],
) -> Result<(), DirectoryFault>
    requires directory { IsDirectory limits files.old.items }
    requires group { IsGroup changes.now }
    requires applicable { IsOk (outcome_of_all limits files.old.items changes.now) }
    ensures outcome { MatchResult result (λ _. outcome_of_all limits files.old.items changes.now ≡ Ok files.new.items)
        (λ fault. (fault ≡ DirectoryFault.NoMemory) × (files.new.items ≡ files.old.items)) }
    ensures directory { IsDirectory limits files.new.items }
{
    let supplies = make_supplies(alloc, changes)?;
    files.reserve(limits.files as usize - files.len())?;
    apply_all(limits, files, changes, supplies);
    Ok(())
}

/// Applies changes that are applicable, with the memory that they take, if there is room for all files.
fn apply_all(limits: Limits, files: &mut Vec<File>, changes: &[Change<'_>], supplies: Vec<Supply>)
    requires applicable { IsOk (outcome_of_all limits files.old.items changes.now) }
    requires supplied { supplies.items ≡ flat_map supplies_of changes.now }
    requires room { limits.files ≤ vec_capacity files.old }
    ensures { outcome_of_all limits files.old.items changes.now ≡ Ok files.new.items }
{
    let mut left = supplies.into_iter();
    for change in changes {
        let supply = take_supply(change, &mut left);
        apply_change(limits, files, change, supply);
    }
}
