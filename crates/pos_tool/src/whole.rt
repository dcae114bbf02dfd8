//! Files that appear whole or not at all.
ghost use Rattle.std.specs.Prelude.{◌≡◌, ◌++◌, IfOk, string_bytes};
ghost use Rattle.pos_tool.specs.Whole.{ChecksFile, ChecksReport, LinksPart, Puts, PutsInstead, PutsReport};
ghost use Rattle.pos_tool.specs.Whole.{RenamesPart, Replaces, ReplacesOpen, SetsAside, Settles, SettlesNamed};
ghost use Rattle.pos_tool.specs.Whole.{TakesName, WritesPart, WritesWhole, has_one_name, is_report, to_make};

use crate::folder::Folder;
use pos_file::BlockFile;
use pos_program::{FileFault, FileSystem, sync_folder};
use std::alloc::{AllocError, Global};
use std::fs::{File, OpenOptions};
use std::io;
use thiserror::Error;

/// Why a file isn't made whole. Nothing is at its path then that wasn't there before, but as the last two say.
#[derive(Clone, Copy, Debug, Error)]
pub enum WholeFault {
    /// There was no memory.
    #[error("no memory")]
    NoMemory,
    /// The file beside it, in which it is made, can't be made.
    #[error("the file beside it, with .part at its end, can't be made: {0}")]
    Part(io::Error),
    /// Its name is that of a link, a folder, a pipe or a device.
    #[error("is no file, but a link, a folder, a pipe or a device")]
    NoFile,
    /// Its name is that of a file that is no report, and would be lost.
    #[error("is there, and is no report that may be replaced")]
    NoReport,
    /// It couldn't be written whole, or not be synced.
    #[error("can't be written and synced whole")]
    Unwritten,
    /// It can't get its name.
    #[error("can't be put there: {0}")]
    Link(io::Error),
    /// What it replaces can't be kept beside it.
    #[error("the old file can't be kept beside it, with .old at its end: {0}")]
    Aside(io::Error),
    /// It can't get the owner and the mode of what it replaces.
    #[error("can't get the owner and the mode of the old file: {0}")]
    Rights(io::Error),
    /// It is there, whole, but the file beside it can't be removed.
    #[error("is there, but the file beside it, with .part at its end, can't be removed: {0}")]
    Left(io::Error),
    /// It is there, whole, but a crash may take its name away.
    #[error("is there, but {0}")]
    Unsynced(FileFault),
}

impl From<AllocError> for WholeFault {
    ghost use Rattle.pos_tool.specs.declared.whole.WholeFault.TheVariants.{NoMemory};

    ghost from_gives = { λ _ fault. fault ≡ NoMemory };

    fn from(_: AllocError) -> Self {
        WholeFault::NoMemory
    }
}

// The path of a file beside another one, with an end of its own.
fn beside(alloc: Global, path: &str, end: &str) -> Result<String, AllocError>
    ensures { IfOk result (λ name. string_bytes name ≡ path.now ++ end.now) }
{
    let mut name = String::from_str(alloc, path)?;
    name.push_str(end)?;
    Ok(name)
}

// How a file is opened that is made, and isn't there.
fn options() -> OpenOptions
    ensures { result ≡ to_make }
{
    let mut options = File::options();
    options.write(true).create_new(true);
    options
}

// Writes all bytes to a new file, and syncs it.
fn write_whole<F: BlockFile>(file: &mut F, bytes: &[u8]) -> Result<(), WholeFault>
    ensures { WritesWhole F.calls file.old file.new bytes.now result }
{
    match file.write_at(0, bytes) {
        Ok(count) if count == bytes.len() => {}
        _ => return Err(WholeFault::Unwritten),
    }
    match file.sync() {
        Ok(()) => Ok(()),
        Err(_) => Err(WholeFault::Unwritten),
    }
}

// Makes a new file with these bytes, which may be its owner's alone, and leaves it open. If that fails after it was
// made, it is removed again.
fn write_part<S: FileSystem + Folder>(
    system: &mut S,
    part: &str,
    is_private: bool,
    bytes: &[u8],
) -> Result<S::File, WholeFault>
    ensures { WritesPart S.FileSystem S.Folder ⟦<S::File as BlockFile>⟧ system.old system.new part.now is_private
        bytes.now result }
{
    let mut file = match system.open(&options(), is_private, part) {
        Ok(file) => file,
        Err(cause) => return Err(WholeFault::Part(cause)),
    };
    match write_whole(&mut file, bytes) {
        Ok(()) => Ok(file),
        Err(fault) => {
            file.close();
            let _ = system.remove(part);
            Err(fault)
        }
    }
}

// Makes the name of an open file stay.
fn settle<S: FileSystem>(system: &S, file: &S::File, path: &str) -> Result<(), WholeFault>
    ensures { Settles S.FileSystem system.now file.now path.now result }
{
    match sync_folder(system, file, path) {
        Ok(()) => Ok(()),
        Err(cause) => Err(WholeFault::Unsynced(cause)),
    }
}

// Whether a second name was refused as it is where a file has one name, such as on a FAT stick.
fn has_one_name(kind: io::ErrorKind) -> bool
    ensures { result ≡ has_one_name kind }
{
    matches!(
        kind,
        io::ErrorKind::PermissionDenied | io::ErrorKind::Unsupported
    )
}

// Gives an open file that is whole its name, in place of the one that it was made with.
fn take_name<S: FileSystem + Folder>(
    system: &mut S,
    file: &S::File,
    part: &str,
    path: &str,
) -> Result<(), WholeFault>
    ensures { TakesName S.FileSystem S.Folder ⟦<S::File as BlockFile>⟧ system.old system.new file.now part.now path.now
        result }
{
    let named = system.take_name(file, part, path);
    settle_named(system, file, named, part, path)
}

// Gives an open file that is whole its name, and takes away the one that it was made with. Where a file has one name,
// it gets the new one in place of that.
fn link_part<S: FileSystem + Folder>(
    system: &mut S,
    file: &S::File,
    part: &str,
    path: &str,
) -> Result<(), WholeFault>
    ensures { LinksPart S.FileSystem S.Folder ⟦<S::File as BlockFile>⟧ system.old system.new file.now part.now path.now
        result }
{
    match system.link(file, part, path) {
        Ok(()) => {}
        Err(cause) if has_one_name(cause.kind()) => return take_name(system, file, part, path),
        Err(cause) => {
            let _ = system.remove(part);
            return Err(WholeFault::Link(cause));
        }
    }
    if let Err(cause) = system.remove(part) {
        return Err(WholeFault::Left(cause));
    }
    settle(system, file, path)
}

/// Makes a file with these bytes at a path where none is, for its owner alone. They are written to a file beside it and
/// synced, and only then does it get its name: whatever happens, the whole file is there or none.
///
/// # Errors
///
/// Those of [`WholeFault`]; `Link` also if a file is there.
pub(crate) fn put_new<S: FileSystem + Folder>(
    alloc: Global,
    system: &mut S,
    path: &str,
    bytes: &[u8],
) -> Result<(), WholeFault>
    ensures { Puts S.FileSystem S.Folder ⟦<S::File as BlockFile>⟧ system.old system.new path.now bytes.now result }
{
    let part = beside(alloc, path, ".part")?;
    let file = write_part(system, &part, true, bytes)?;
    let answer = link_part(system, &file, &part, path);
    file.close();
    answer
}

// Checks that a file may take a name: the name is free, or a file's.
fn check_file<S: Folder>(system: &S, path: &str) -> Result<(), WholeFault>
    ensures { ChecksFile S.Folder system.now path.now result }
{
    match system.is_free_or_file(path) {
        Ok(true) => Ok(()),
        Ok(false) => Err(WholeFault::NoFile),
        Err(cause) => Err(WholeFault::Link(cause)),
    }
}

// Makes the new name of an open file stay. If it didn't get that name, the file beside it is removed again.
fn settle_named<S: FileSystem + Folder>(
    system: &mut S,
    file: &S::File,
    named: io::Result<()>,
    part: &str,
    path: &str,
) -> Result<(), WholeFault>
    ensures { SettlesNamed S.FileSystem S.Folder system.old system.new file.now part.now path.now named result }
{
    if let Err(cause) = named {
        let _ = system.remove(part);
        return Err(WholeFault::Link(cause));
    }
    settle(system, file, path)
}

// Puts an open file that is whole in the place of what has its name.
fn rename_part<S: FileSystem + Folder>(
    system: &mut S,
    file: &S::File,
    part: &str,
    path: &str,
) -> Result<(), WholeFault>
    ensures { RenamesPart S.FileSystem S.Folder ⟦<S::File as BlockFile>⟧ system.old system.new file.now part.now
        path.now result }
{
    let named = system.rename(file, part, path);
    settle_named(system, file, named, part, path)
}

// Whether bytes are those of a report, or none.
fn is_report(bytes: &[u8]) -> bool
    ensures { result ≡ is_report bytes.now }
{
    bytes.is_empty() || bytes.starts_with(b"<?xml")
}

// Checks that a report may take a name: the name is free, or that of a report or of an empty file.
fn check_report<S: FileSystem>(system: &S, path: &str) -> Result<(), WholeFault>
    ensures { ChecksReport S.FileSystem system.now path.now result }
{
    match system.read(path) {
        Ok(bytes) if is_report(&bytes) => Ok(()),
        Ok(_) => Err(WholeFault::NoReport),
        Err(cause) if cause.kind() == io::ErrorKind::NotFound => Ok(()),
        Err(cause) => Err(WholeFault::Link(cause)),
    }
}

/// Makes a report with these bytes at a path, in place of one that may be there. They are written to a file beside it
/// and synced, and only then does it get its name: whatever happens, the whole report is there or what was there
/// before.
///
/// # Errors
///
/// Those of [`WholeFault`].
pub(crate) fn put_report<S: FileSystem + Folder>(
    alloc: Global,
    system: &mut S,
    path: &str,
    bytes: &[u8],
) -> Result<(), WholeFault>
    ensures { PutsReport S.FileSystem S.Folder ⟦<S::File as BlockFile>⟧ system.old system.new path.now bytes.now
        result }
{
    let part = beside(alloc, path, ".part")?;
    check_file(system, path)?;
    check_report(system, path)?;
    let file = write_part(system, &part, false, bytes)?;
    let answer = rename_part(system, &file, &part, path);
    file.close();
    answer
}

// Puts an open file that is whole in the place of another open one, `held`.
fn replace_open<S: FileSystem + Folder>(
    system: &mut S,
    file: &S::File,
    held: &S::File,
    part: &str,
    path: &str,
) -> Result<(), WholeFault>
    ensures { ReplacesOpen S.FileSystem S.Folder ⟦<S::File as BlockFile>⟧ system.old system.new file.now held.now
        part.now path.now result }
{
    let named = system.replace(file, held, part, path);
    settle_named(system, file, named, part, path)
}

// Keeps the open file `held` under a second name, and then puts another one in its place, with its owner and mode. If
// that fails, it loses the second name.
fn set_aside<S: FileSystem + Folder>(
    system: &mut S,
    file: &S::File,
    held: &S::File,
    part: &str,
    path: &str,
    old: &str,
) -> Result<(), WholeFault>
    ensures { SetsAside S.FileSystem S.Folder ⟦<S::File as BlockFile>⟧ system.old system.new file.now held.now part.now
        path.now old.now result }
{
    if let Err(cause) = system.link(held, path, old) {
        let _ = system.remove(part);
        return Err(WholeFault::Aside(cause));
    }
    if let Err(cause) = system.copy_rights(old, part) {
        let _ = system.remove(part);
        let _ = system.remove(old);
        return Err(WholeFault::Rights(cause));
    }
    match replace_open(system, file, held, part, path) {
        Err(WholeFault::Link(cause)) => {
            let _ = system.remove(old);
            Err(WholeFault::Link(cause))
        }
        answer => answer,
    }
}

// Puts a file with these bytes in place of the open one at a path, `held`, by these names beside it: one for what is
// made, and one for what it replaces.
fn put_instead<S: FileSystem + Folder>(
    system: &mut S,
    held: &S::File,
    part: &str,
    path: &str,
    old: &str,
    bytes: &[u8],
) -> Result<(), WholeFault>
    ensures { PutsInstead S.FileSystem S.Folder ⟦<S::File as BlockFile>⟧ system.old system.new held.now part.now
        path.now old.now bytes.now result }
{
    check_file(system, path)?;
    let file = write_part(system, part, true, bytes)?;
    let answer = set_aside(system, &file, held, part, path, old);
    file.close();
    answer
}

/// Puts a file with these bytes in place of the open one at a path, `held`, which is kept beside it with `.old` at its
/// end. It has the old one's owner and mode. Whatever happens, the whole old file or the whole new one is at the path.
///
/// # Errors
///
/// Those of [`WholeFault`]; `Aside` also if a file with `.old` at its end is there.
pub(crate) fn replace<S: FileSystem + Folder>(
    alloc: Global,
    system: &mut S,
    held: &S::File,
    path: &str,
    bytes: &[u8],
) -> Result<(), WholeFault>
    ensures { Replaces S.FileSystem S.Folder ⟦<S::File as BlockFile>⟧ system.old system.new held.now path.now bytes.now
        result }
{
    let part = beside(alloc, path, ".part")?;
    let old = beside(alloc, path, ".old")?;
    put_instead(system, held, &part, path, &old, bytes)
}
