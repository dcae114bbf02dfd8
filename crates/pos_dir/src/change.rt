//! What a change of the files is, why a group doesn't take it, and what it does.
ghost use Rattle.std.specs.Prelude.{◌≡◌, ◌≤◌, IsOk, Ok, MatchResult, if◌then◌else◌, None, Some, vec_capacity};
ghost use Rattle.pos_dir.specs.declared.fault.DirectoryFault.TheVariants.{BadName};
ghost use Rattle.pos_dir.specs.Files.{is_name};
ghost use Rattle.pos_dir.specs.Changes.{flaw_of, least_size_of, outcome, HasWidths};
ghost use Rattle.pos_dir.specs.Supplies.{IsSupplied};

use crate::fault::DirectoryFault;
use crate::file::{File, Limits};
use crate::names::is_name;
use crate::supplies::Supply;
use pos_bytes::LentBytes;

/// The most bytes that one Write may have.
pub(crate) const WRITE_LIMIT: usize = 65_536;

/// A change of the files of Hard Totals (UnifiedPOS 1.16, Hard Totals: create, delete, rename, write, setAll).
///
/// A file is named by its index at the moment of the change. Names and bytes are lent.
#[derive(Drop)]
pub enum Change<'a> {
    /// Adds a file of zero bytes after the others.
    Create {
        /// Its name, which no file has: 1 to 10 bytes of 0x20 to 0x7F.
        name: LentBytes<'a>,
        /// How many bytes it has.
        size: u32,
    },
    /// Removes a file. The indexes of the files after it fall by one.
    Delete {
        /// The index of the file, from 0.
        index: u16,
    },
    /// Gives a file another name.
    Rename {
        /// The index of the file, from 0.
        index: u16,
        /// The new name, which no file has, not even this one: 1 to 10 bytes of 0x20 to 0x7F.
        name: LentBytes<'a>,
    },
    /// Puts bytes in the place of those of a file from an offset on.
    Write {
        /// The index of the file, from 0.
        index: u16,
        /// The offset of the first byte, from 0.
        offset: u32,
        /// The bytes, at most 65,536.
        bytes: LentBytes<'a>,
    },
    /// Makes each byte of a file the same.
    SetAll {
        /// The index of the file, from 0.
        index: u16,
        /// The byte.
        value: u8,
    },
}

/// Returns why a group doesn't take a change, whatever its room, or `None` if it does.
pub(crate) fn find_flaw(change: &Change<'_>) -> Option<DirectoryFault>
    ensures flaw { result ≡ flaw_of change.now }
    ensures widths { HasWidths change.now }
{
    match change {
        Change::Create { name, size } => {
            let _size = *size;
            find_name_flaw(name)
        }
        Change::Delete { index } => {
            let _index = *index;
            None
        }
        Change::Rename { index, name } => {
            let _index = *index;
            find_name_flaw(name)
        }
        Change::Write {
            index,
            offset,
            bytes,
        } => {
            let _place = (*index, *offset);
            if bytes.as_slice().len() <= WRITE_LIMIT {
                None
            } else {
                Some(DirectoryFault::Range)
            }
        }
        Change::SetAll { index, value } => {
            let _place = (*index, *value);
            None
        }
    }
}

/// Why a group doesn't take a name.
fn find_name_flaw(name: &LentBytes<'_>) -> Option<DirectoryFault>
    ensures { result ≡ (if is_name name.now then None else Some BadName) }
{
    if is_name(name.as_slice()) {
        None
    } else {
        Some(DirectoryFault::BadName)
    }
}

/// Returns the file of a change of its bytes alone, and the least size that it must have, or `None` for another change.
pub(crate) fn find_least_size(change: &Change<'_>) -> Option<(u16, usize)>
    ensures { result ≡ least_size_of change.now }
{
    match change {
        Change::Write {
            index,
            offset,
            bytes,
        } => Some((*index, *offset as usize + bytes.as_slice().len())),
        Change::SetAll { index, value: _ } => Some((*index, 0)),
        _ => None,
    }
}

/// Applies a change that is applicable, with the memory that it takes, if there is room for all files.
pub(crate) fn apply_change(
    limits: Limits,
    files: &mut Vec<File>,
    change: &Change<'_>,
    supply: Option<Supply>,
)
    requires applicable { IsOk (outcome limits files.old.items change.now) }
    requires supplied { IsSupplied change.now supply }
    requires room { limits.files ≤ vec_capacity files.old }
    ensures outcome { outcome limits files.old.items change.now ≡ Ok files.new.items }
    ensures room { limits.files ≤ vec_capacity files.new }
{
    match change {
        Change::Create { .. } => {
            let Some(Supply::NewFile(file)) = supply else {
                unreachable!()
            };
            prove!(files.len() < limits.files as usize);
            files.push_reserved(file)
        }
        Change::Delete { index } => {
            let _removed = files.remove(*index as usize);
        }
        Change::Rename { index, name: _ } => {
            let Some(Supply::NewName(name)) = supply else {
                unreachable!()
            };
            files[*index as usize].name = name
        }
        Change::Write {
            index,
            offset,
            bytes,
        } => files[*index as usize]
            .bytes
            .overwrite(*offset as usize, bytes.as_slice()),
        Change::SetAll { index, value } => files[*index as usize].bytes.fill(*value),
    }
}
