//! Copies of totals files.
ghost use Rattle.std.specs.Prelude.{IfErr, IfOk};
ghost use Rattle.pos_program.specs.Answers.{bytes_of};
ghost use Rattle.pos_tool.specs.Copies.{BacksUp, ChecksSound, CopiesTo, EndsCopy, IsUnread, IsUnreadTwice, PutsBack};
ghost use Rattle.pos_tool.specs.Copies.{ReadsFront, ReadsSteady, ReadsTwice, Restores, TakesSnapshot, lent};
ghost use Rattle.pos_tool.specs.NewFiles.{Loads, LoadsText, MakesLoad, MakesSalvage, PutsSalvaged, PutsWhatIsLeft};
ghost use Rattle.pos_tool.specs.NewFiles.{Salvages};
ghost use Rattle.pos_tool.specs.Surveys.{EndsAtFile};
ghost use Rattle.pos_program.specs.declared.file_fault.FileFault.TheVariants.{Unreadable};
ghost use Rattle.pos_shell.specs.Outputs.{output_of};

use crate::answers::print;
use crate::fault::Fault;
use crate::folder::Folder;
use crate::whole::{WholeFault, put_new, replace};
use pos_file::BlockFile;
use pos_program::{FileFault, FileSystem, close_totals, lock_totals, open_file, read_totals};
use pos_report::{Finding, LoadFault, Salvaged, load_totals, salvage_totals};
use pos_streams::Sink;
use pos_survey::{Survey, SurveyFault};
use std::alloc::Global;
use std::io;

// How many bytes a totals file has that are looked at.
const LENGTH: usize = 327_680;

// How often at most a file is read twice, as long as the two readings differ.
const TURNS: usize = 1_000;

// Reads the bytes of a totals file, by one read.
fn read_front<F: BlockFile>(alloc: Global, file: &mut F) -> Result<Vec<u8>, FileFault>
    ensures ok { IfOk result (λ bytes. ReadsFront F.calls file.old file.new bytes.items) }
    ensures err { IfErr result (IsUnread (F.calls file.old) (F.calls file.new)) }
{
    let Ok(mut bytes) = vec![in alloc; 0; LENGTH] else {
        return Err(FileFault::NoMemory);
    };
    let Ok(count) = file.read_at(0, bytes.as_mut_slice()) else {
        return Err(FileFault::NotRead);
    };
    if count != LENGTH {
        return Err(FileFault::Short);
    }
    Ok(bytes)
}

// Reads the bytes of a totals file twice, and gives them if both readings gave the same.
fn read_twice<F: BlockFile>(alloc: Global, file: &mut F) -> Result<Option<Vec<u8>>, FileFault>
    ensures ok { IfOk result (λ same. ReadsTwice F.calls file.old file.new (lent same)) }
    ensures err { IfErr result (IsUnreadTwice (F.calls file.old) (F.calls file.new)) }
{
    let first = read_front(alloc, file)?;
    let second = read_front(alloc, file)?;
    if second.as_slice() == first.as_slice() {
        return Ok(Some(second));
    }
    Ok(None)
}

// Reads the bytes of a totals file until two readings, one right after the other, give the same.
fn read_steady<F: BlockFile>(alloc: Global, file: &mut F) -> Result<Vec<u8>, FileFault>
    ensures { ReadsSteady F.calls file.old file.new (bytes_of result) }
{
    for _ in 0..TURNS {
        if let Some(bytes) = read_twice(alloc, file)? {
            return Ok(bytes);
        }
    }
    Err(FileFault::Unsteady)
}

// The bytes of the totals file at a path, which a till may be writing.
fn take_snapshot<S: FileSystem + AllocGlobal>(system: &S, path: &str) -> Result<Vec<u8>, FileFault>
    ensures { TakesSnapshot S.FileSystem ⟦<S::File as BlockFile>⟧ system.now path.now (bytes_of result) }
{
    let mut file = open_file(system, path)?;
    let bytes = read_steady(system.alloc(), &mut file);
    file.close();
    bytes
}

/// Checks that bytes are those of sound totals.
///
/// # Errors
///
/// Those of [`Survey::of`].
pub(crate) fn check_sound(alloc: Global, bytes: &[u8]) -> Result<(), SurveyFault>
    ensures { ChecksSound bytes.now result }
{
    match Survey::of(alloc, bytes) {
        Ok(_) => Ok(()),
        Err(fault) => Err(fault),
    }
}

// What is answered of a file that was to be made, to the program.
fn at_copy<'a>(path: &'a str, answer: Result<(), WholeFault>) -> Result<Finding, Fault<'a>>
    ensures { EndsCopy path.entry.now answer result }
{
    match answer {
        Ok(()) => Ok(Finding::Good),
        Err(cause) => Err(Fault::Whole { path, cause }),
    }
}

// Puts a file with these bytes at a path: where none is, or in place of one that no program has open. Nothing of that
// one is read, so that a file on a damaged disk gives way too.
fn put<'a, S: FileSystem + Folder + AllocGlobal>(
    system: &mut S,
    path: &'a str,
    bytes: &[u8],
    replaces: bool,
) -> Result<Finding, Fault<'a>>
    ensures { PutsBack S.FileSystem S.Folder ⟦<S::File as BlockFile>⟧ system.old system.new path.entry.now bytes.now
        replaces result }
{
    let alloc = system.alloc();
    if !replaces {
        return at_copy(path, put_new(alloc, system, path, bytes));
    }
    match lock_totals(system, path, false) {
        Ok(held) => {
            let answer = replace(alloc, system, held.file(), path, bytes);
            held.close();
            at_copy(path, answer)
        }
        Err(cause) => Err(Fault::File { path, cause }),
    }
}

// Puts the bytes of the totals file at one path to another path, if they are sound.
fn copy_bytes<'a, S: FileSystem + Folder + AllocGlobal>(
    system: &mut S,
    from: &'a str,
    bytes: &[u8],
    to: &'a str,
    replaces: bool,
) -> Result<Finding, Fault<'a>>
    ensures { CopiesTo S.FileSystem S.Folder ⟦<S::File as BlockFile>⟧ system.old system.new from.entry.now to.entry.now
        replaces bytes.now result }
{
    match check_sound(system.alloc(), bytes) {
        Ok(()) => put(system, to, bytes, replaces),
        Err(cause) => Err(Fault::Totals { path: from, cause }),
    }
}

/// Copies the totals file at a path, which a till may be writing, to a path where no file is. The copy has the bytes
/// that two readings gave, one right after the other, and they are sound. docs/reference/tool.md, "backup".
///
/// # Errors
///
/// `File` if it can't be read, or changed from each reading to the next; `Totals` if it isn't sound; `Whole` if the
/// copy can't be made, or a file is there.
pub(crate) fn back_up<'a, S: FileSystem + Folder + AllocGlobal>(
    system: &mut S,
    from: &'a str,
    to: &'a str,
) -> Result<Finding, Fault<'a>>
    ensures { BacksUp S.FileSystem S.Folder ⟦<S::File as BlockFile>⟧ system.old system.new from.entry.now to.entry.now
        result }
{
    match take_snapshot(system, from) {
        Ok(bytes) => copy_bytes(system, from, &bytes, to, false),
        Err(cause) => Err(Fault::File { path: from, cause }),
    }
}

/// Puts a copy of totals back, which is only read and sound: at a path where no file is, or in place of a file, which
/// is locked meanwhile and kept. docs/reference/tool.md, "restore".
///
/// # Errors
///
/// `File` if one of them can't be read or is in use; `Totals` if the copy isn't sound; `Whole` if the file can't be
/// made, or one is there.
pub(crate) fn restore<'a, S: FileSystem + Folder + AllocGlobal>(
    system: &mut S,
    from: &'a str,
    to: &'a str,
    replaces: bool,
) -> Result<Finding, Fault<'a>>
    ensures { Restores S.FileSystem S.Folder ⟦<S::File as BlockFile>⟧ system.old system.new from.entry.now to.entry.now
        replaces result }
{
    match read_totals(system, from) {
        Ok(totals) => {
            let answer = copy_bytes(system, from, totals.bytes(), to, replaces);
            close_totals(totals);
            answer
        }
        Err(cause) => Err(Fault::File { path: from, cause }),
    }
}

// What can be had of damaged bytes.
fn make_salvage(alloc: Global, bytes: &[u8]) -> Result<Salvaged, SurveyFault>
    ensures { MakesSalvage bytes.now result }
{
    match salvage_totals(alloc, bytes) {
        Ok(made) => Ok(made),
        Err(fault) => Err(fault),
    }
}

// Makes a file of what was salvaged, and prints what was lost.
fn put_salvaged<'a, S: FileSystem + Folder + AllocGlobal, W: Sink>(
    system: &mut S,
    writer: &mut W,
    made: &Salvaged,
    to: &'a str,
) -> Result<Finding, Fault<'a>>
    ensures { PutsSalvaged S.FileSystem S.Folder ⟦<S::File as BlockFile>⟧ system.old system.new to.entry.now made.now
        (output_of W.Sink writer.old) (output_of W.Sink writer.new) result }
{
    let alloc = system.alloc();
    match put_new(alloc, system, to, &made.bytes) {
        Ok(()) => print(writer, &made.lost),
        Err(cause) => Err(Fault::Whole { path: to, cause }),
    }
}

// Makes a file of what was salvaged, if anything could be had of the damaged totals at a path.
fn put_what_is_left<'a, S: FileSystem + Folder + AllocGlobal, W: Sink>(
    system: &mut S,
    writer: &mut W,
    from: &'a str,
    made: Result<Salvaged, SurveyFault>,
    to: &'a str,
) -> Result<Finding, Fault<'a>>
    ensures { PutsWhatIsLeft S.FileSystem S.Folder ⟦<S::File as BlockFile>⟧ system.old system.new from.entry.now
        to.entry.now made (output_of W.Sink writer.old) (output_of W.Sink writer.new) result }
{
    match made {
        Ok(made) => put_salvaged(system, writer, &made, to),
        Err(cause) => Err(Fault::Unsalvaged { path: from, cause }),
    }
}

/// Makes sound totals of damaged ones, which are only read, and closed before anything is made or printed, at a path
/// where no file is; and prints what was lost. docs/reference/tool.md, "salvage".
///
/// # Errors
///
/// `File` if the damaged file can't be read or is in use; `Unsalvaged` if nothing can be had of it; `Whole` if the new
/// file can't be made, or one is there; `Write` if the new file is there, but what was lost can't be written.
pub(crate) fn salvage<'a, S: FileSystem + Folder + AllocGlobal, W: Sink>(
    system: &mut S,
    writer: &mut W,
    from: &'a str,
    to: &'a str,
) -> Result<Finding, Fault<'a>>
    ensures { Salvages S.FileSystem S.Folder ⟦<S::File as BlockFile>⟧ system.old system.new from.entry.now to.entry.now
        (output_of W.Sink writer.old) (output_of W.Sink writer.new) result }
{
    match read_totals(system, from) {
        Ok(totals) => {
            let made = make_salvage(system.alloc(), totals.bytes());
            system.close_before(totals, writer);
            put_what_is_left(system, writer, from, made, to)
        }
        Err(cause) => Err(Fault::File { path: from, cause }),
    }
}

// The bytes of sound totals of which a dump prints this text.
fn make_load(alloc: Global, text: &[u8]) -> Result<Vec<u8>, LoadFault>
    ensures { MakesLoad text.now (bytes_of result) }
{
    match load_totals(alloc, text) {
        Ok(bytes) => Ok(bytes),
        Err(fault) => Err(fault),
    }
}

// Makes a totals file of the dump at a path, which has this text.
fn load_text<'a, S: FileSystem + Folder + AllocGlobal>(
    system: &mut S,
    from: &'a str,
    text: &[u8],
    to: &'a str,
) -> Result<Finding, Fault<'a>>
    ensures { LoadsText S.FileSystem S.Folder ⟦<S::File as BlockFile>⟧ system.old system.new from.entry.now to.entry.now
        text.now result }
{
    match make_load(system.alloc(), text) {
        Ok(bytes) => {
            let alloc = system.alloc();
            at_copy(to, put_new(alloc, system, to, &bytes))
        }
        Err(cause) => Err(Fault::Load { path: from, cause }),
    }
}

// What is answered of the text at a path that can't be read, to the program.
fn unread<'a>(path: &'a str, cause: io::Error) -> Result<Finding, Fault<'a>>
    ensures { EndsAtFile path.entry.now (Unreadable cause) result }
{
    let cause = FileFault::Unreadable(cause);
    Err(Fault::File { path, cause })
}

/// Makes a totals file of the dump at a path, where no file is. docs/reference/tool.md, "load".
///
/// # Errors
///
/// `File` if the dump can't be read; `Load` if it is none; `Whole` if the file can't be made, or one is there.
pub(crate) fn load<'a, S: FileSystem + Folder + AllocGlobal>(
    system: &mut S,
    from: &'a str,
    to: &'a str,
) -> Result<Finding, Fault<'a>>
    ensures { Loads S.FileSystem S.Folder ⟦<S::File as BlockFile>⟧ system.old system.new from.entry.now to.entry.now
        result }
{
    match system.read(from) {
        Ok(text) => load_text(system, from, &text, to),
        Err(cause) => unread(from, cause),
    }
}
