//! A check of a group over the names and sizes of the files, which takes no memory.
ghost use Rattle.std.specs.Prelude.{◌≡◌, ◌≤◌, ◌<◌, ◌^◌, [], IfSome, length, slice_get, sum_by};
ghost use Rattle.pos_dir.specs.declared.change.Change.TheVariants.{Create, Delete, Rename};
ghost use Rattle.std.specs.Option.{option_map};
ghost use Rattle.std.specs.Result.{result_err};
ghost use Rattle.pos_dir.specs.Files.{IsDirectory};
ghost use Rattle.pos_dir.specs.Changes.{fault_of, outcome};
ghost use Rattle.pos_dir.specs.Outlines.{AreOutlines, is_named, size_in, answer_by_size, Checks};

use crate::change::{Change, find_least_size};
use crate::directory::Directory;
use crate::fault::DirectoryFault;
use crate::file::{File, LAYOUT_1, LAYOUT_2, Limits};
use crate::group::Group;
use arrayvec::ArrayVec;

/// The most files within the limits of layout 1.
const FEW_FILES: usize = LAYOUT_1.files as usize;

/// The most files of any directory.
const MOST_FILES: usize = LAYOUT_2.files as usize;

/// The name and the size of a file.
#[derive(Clone, Copy, Default)]
struct Outline<'a> {
    name: &'a [u8],
    size: usize,
}

/// Returns whether some outline has the name.
fn is_named(outlines: &[Outline<'_>], name: &[u8]) -> bool
    ensures { result ≡ is_named outlines.now name.now }
{
    outlines.iter().any(|outline| outline.name == name)
}

/// Returns the sizes in total.
fn sum_outlines(outlines: &[Outline<'_>]) -> usize
    requires { sum_by (λ outline. outline.size) outlines.now < 2 ^ 32 }
    ensures { result ≡ sum_by (λ outline. outline.size) outlines.now }
{
    outlines.iter().map(|outline| outline.size).sum()
}

/// Checks a Create.
#[tactic(auto, using(crate::proofs::OutlineLemmas::outlining))]
fn check_create<'a, const N: usize>(
    outlines: &mut ArrayVec<Outline<'a>, N>,
    limits: Limits,
    name: &'a [u8],
    size: u32,
) -> Result<(), DirectoryFault>
    requires files { limits.files ≤ N }
    requires total { sum_by (λ outline. outline.size) outlines.old.items ≤ limits.bytes }
    ensures { Checks limits outlines.old.items (Create name.now size) result outlines.new.items }
{
    if is_named(outlines.as_slice(), name) {
        return Err(DirectoryFault::Exists);
    }
    if outlines.len() >= limits.files as usize {
        return Err(DirectoryFault::NoRoom);
    }
    let room = limits.bytes as usize - sum_outlines(outlines.as_slice());
    let size = size as usize;
    if size > room {
        return Err(DirectoryFault::NoRoom);
    }
    outlines.push(Outline { name, size });
    Ok(())
}

/// Checks a Delete.
fn check_delete<const N: usize>(
    outlines: &mut ArrayVec<Outline<'_>, N>,
    index: u16,
) -> Result<(), DirectoryFault>
    ensures { (limits : Limits) → Checks limits outlines.old.items (Delete index) result outlines.new.items }
{
    let index = index as usize;
    if index >= outlines.len() {
        return Err(DirectoryFault::NoFile);
    }
    let _removed = outlines.remove(index);
    Ok(())
}

/// Checks a Rename.
fn check_rename<'a, const N: usize>(
    outlines: &mut ArrayVec<Outline<'a>, N>,
    index: u16,
    name: &'a [u8],
) -> Result<(), DirectoryFault>
    ensures { (limits : Limits) → Checks limits outlines.old.items (Rename index name.now) result outlines.new.items }
{
    let index = index as usize;
    if index >= outlines.len() {
        return Err(DirectoryFault::NoFile);
    }
    let is_taken = is_named(outlines.as_slice(), name);
    if is_taken {
        return Err(DirectoryFault::Exists);
    }
    let Outline { name: _, size } = outlines.remove(index);
    outlines.insert(index, Outline { name, size });
    Ok(())
}

/// Checks a change of the bytes of a file by the file's size, `None` if there is no file.
fn check_size(size: Option<usize>, least: usize) -> Result<(), DirectoryFault>
    ensures { result ≡ answer_by_size size least }
{
    let Some(size) = size else {
        return Err(DirectoryFault::NoFile);
    };
    if least > size {
        return Err(DirectoryFault::Range);
    }
    Ok(())
}

/// Returns the size of an outline, or `None` after the last one.
fn outline_size(outlines: &[Outline<'_>], index: u16) -> Option<usize>
    ensures { result ≡ option_map (λ outline. outline.size) (slice_get outlines.now index) }
{
    let outline = outlines.get(index as usize)?;
    Some(outline.size)
}

/// Returns the size of a file, or `None` after the last one.
fn file_size(files: &[File], index: u16) -> Option<usize>
    ensures { result ≡ size_in files.now index }
{
    let file = files.get(index as usize)?;
    Some(file.bytes.as_slice().len())
}

/// Checks one change, and makes of the outlines what it makes of the files.
fn check<'a, const N: usize>(
    outlines: &mut ArrayVec<Outline<'a>, N>,
    limits: Limits,
    change: &'a Change<'_>,
) -> Result<(), DirectoryFault>
    requires files { limits.files ≤ N }
    requires total { sum_by (λ outline. outline.size) outlines.old.items ≤ limits.bytes }
    ensures { Checks limits outlines.old.items change.now result outlines.new.items }
{
    if let Some((index, least)) = find_least_size(change) {
        return check_size(outline_size(outlines.as_slice(), index), least);
    }
    match change {
        Change::Create { name, size } => check_create(outlines, limits, name.as_slice(), *size),
        Change::Delete { index } => check_delete(outlines, *index),
        Change::Rename { index, name } => check_rename(outlines, *index, name.as_slice()),
        _ => unreachable!(),
    }
}

/// Makes the outlines of files.
fn outline_files<'a, const N: usize>(outlines: &mut ArrayVec<Outline<'a>, N>, files: &'a [File])
    requires empty { outlines.old.items ≡ [] }
    requires few { length files.now ≤ N }
    ensures { AreOutlines outlines.new.items files.now }
{
    for file in files {
        outlines.push(Outline {
            name: file.name.as_slice(),
            size: file.bytes.as_slice().len(),
        });
    }
}

/// Checks a group if there is room for as many outlines as the limits allow files.
fn check_within<'a, const N: usize>(
    outlines: &mut ArrayVec<Outline<'a>, N>,
    limits: Limits,
    files: &'a [File],
    group: &'a Group<'_>,
) -> Result<(), DirectoryFault>
    requires empty { outlines.old.items ≡ [] }
    requires directory { IsDirectory limits files.now }
    requires few { limits.files ≤ N }
    ensures { result_err result ≡ fault_of limits files.now group.now }
{
    outline_files(outlines, files);
    for change in &group.changes {
        check(outlines, limits, change)?;
    }
    Ok(())
}

/// Checks a group over outlines of all files.
fn check_outlined<'a>(directory: &'a Directory, group: &'a Group<'_>) -> Result<(), DirectoryFault>
    ensures { result_err result ≡ fault_of directory.now.limits directory.now.files group.now }
{
    let files = directory.files.as_slice();
    if directory.limits.files as usize <= FEW_FILES {
        let mut outlines: ArrayVec<Outline<'a>, FEW_FILES> = ArrayVec::new();
        return check_within(&mut outlines, directory.limits, files, group);
    }
    let mut outlines: ArrayVec<Outline<'a>, MOST_FILES> = ArrayVec::new();
    check_within(&mut outlines, directory.limits, files, group)
}

/// Checks a change of the bytes of one file over the file itself, or returns `None` for another change.
fn check_alone(files: &[File], change: &Change<'_>) -> Option<Result<(), DirectoryFault>>
    ensures { (limits : Limits)
        → IfSome result (λ answer. result_err answer ≡ result_err (outcome limits files.now change.now)) }
{
    let (index, least) = find_least_size(change)?;
    Some(check_size(file_size(files, index), least))
}

/// Checks whether a group is applicable. It takes no memory, and a single change of a file's bytes takes no time for
/// the other files.
///
/// # Errors
///
/// The fault of the first change that isn't applicable:
///
/// - `NoFile` if no file has its index.
/// - `Exists` if a file has its name.
/// - `Range` if its bytes pass the end of the file.
/// - `NoRoom` if the files would be too many or too large.
pub fn check_group(directory: &Directory, group: &Group<'_>) -> Result<(), DirectoryFault>
    ensures { result_err result ≡ fault_of directory.now.limits directory.now.files group.now }
{
    if group.changes.len() != 1 {
        return check_outlined(&*directory, &*group);
    }
    match check_alone(directory.files.as_slice(), &group.changes[0]) {
        Some(answer) => answer,
        None => check_outlined(&*directory, &*group),
    }
}
