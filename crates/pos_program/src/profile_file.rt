//! The profile in a file.
ghost use Rattle.std.specs.Prelude.{◌≡◌, ◌≤◌, length, None, Err};
ghost use Rattle.toml.specs.Parse.{parse_document};
ghost use Rattle.pos_profile.specs.Mistakes.{Explains};
ghost use Rattle.pos_program.specs.ProfileFiles.{Reads, ReadsBytes, ReadsFile, ReadsProfile, ReportsRead, line_at};
ghost use Rattle.pos_program.specs.Answers.{bytes_of};

use crate::file_system::FileSystem;
use crate::profile_fault::ProfileFileFault;
use pos_profile::{Profile, ProfileFault, find_mistake};
use pos_service::NoMemory;
use std::alloc::Global;
use std::{io, str};

// Returns the line in which a place of a text lies, counted from 1.
fn line_at(text: &[u8], place: usize) -> usize
    requires { place ≤ length text.now }
    ensures { result ≡ line_at text.entry.now place }
{
    let ends = text[..place].iter().filter(|byte| **byte == b'\n').count();
    ends + 1
}

// Returns why a text that is no TOML document is none.
fn explain_text(alloc: Global, text: &str) -> ProfileFileFault
    requires { parse_document text.now ≡ None }
    ensures { Reads (parse_document text.entry.now) (Err result) }
{
    match toml::table_from_str(alloc, text) {
        Ok(_) => unreachable!(),
        Err(error) => match error.span() {
            Some(span) => ProfileFileFault::NotToml {
                line: line_at(text.as_bytes(), span.start),
                error,
            },
            None => ProfileFileFault::NoMemory,
        },
    }
}

// Returns why a document that isn't sound is no profile.
fn explain_document(alloc: Global, text: &str) -> ProfileFileFault
    requires { ¬ (Explains (parse_document text.now) None) }
    ensures { Reads (parse_document text.entry.now) (Err result) }
{
    match find_mistake(alloc, text) {
        Ok(Some(mistake)) => ProfileFileFault::Unsound(mistake),
        Ok(None) => unreachable!(),
        Err(NoMemory) => ProfileFileFault::NoMemory,
    }
}

/// Returns the profile that a text is.
///
/// # Errors
///
/// The text is refused as `Profile::from_text` refuses it, and the fault says why:
///
/// - `NotToml` if it is no TOML document, and `Unsound` if something in the document isn't sound.
/// - `Duplicate` if two devices have one name.
/// - `NoMemory` if memory ran out.
pub fn profile_of_text(alloc: Global, text: &str) -> Result<Profile, ProfileFileFault>
    ensures { Reads (parse_document text.entry.now) result }
{
    match Profile::from_text(alloc, text) {
        Ok(profile) => Ok(profile),
        Err(ProfileFault::BadText) => Err(explain_text(alloc, text)),
        Err(ProfileFault::BadEntry(_)) => Err(explain_document(alloc, text)),
        Err(ProfileFault::Duplicate(name)) => Err(ProfileFileFault::Duplicate(name)),
        Err(ProfileFault::NoMemory) => Err(ProfileFileFault::NoMemory),
    }
}

// Returns why a file can't be read.
fn fault_of_read(cause: io::Error) -> ProfileFileFault
    ensures { ReportsRead cause result }
{
    if cause.kind() == io::ErrorKind::OutOfMemory {
        return ProfileFileFault::NoMemory;
    }
    ProfileFileFault::Unreadable(cause)
}

/// Returns the profile that the bytes of a file are: that of their text.
///
/// # Errors
///
/// `NotUtf8` if they are not UTF-8, and those of `profile_of_text`.
pub fn profile_of_bytes(alloc: Global, bytes: &[u8]) -> Result<Profile, ProfileFileFault>
    ensures { ReadsBytes bytes.entry.now result }
{
    match str::from_utf8(bytes) {
        Ok(text) => profile_of_text(alloc, text),
        Err(error) => Err(ProfileFileFault::NotUtf8 {
            line: line_at(bytes, error.valid_up_to()),
        }),
    }
}

// Returns the profile that was read from a file, or why there is none.
fn profile_of_read(alloc: Global, read: io::Result<Vec<u8>>) -> Result<Profile, ProfileFileFault>
    ensures { ReadsFile (bytes_of read) result }
{
    match read {
        Ok(bytes) => profile_of_bytes(alloc, &bytes),
        Err(cause) => Err(fault_of_read(cause)),
    }
}

/// Returns the profile in the file at a path.
///
/// # Errors
///
/// `Unreadable` if the file can't be read, and those of `profile_of_bytes`.
pub fn read_profile<S: FileSystem + AllocGlobal>(
    files: &S,
    path: &str,
) -> Result<Profile, ProfileFileFault>
    ensures { ReadsProfile S.FileSystem files.now path.now result }
{
    profile_of_read(files.alloc(), files.read(path))
}
