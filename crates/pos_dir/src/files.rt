//! Files read from the bytes that spell them.
ghost use Rattle.std.specs.Prelude.{◌≡◌, None, IsSome, IfSome, MatchOption, MatchResult};
ghost use Rattle.std.specs.Option.{option_map};
ghost use Rattle.pos_dir.specs.Texts.{file_of};
ghost use Rattle.pos_dir.specs.Files.{has_name, are_distinct};
ghost use Rattle.pos_dir.specs.Reading.{file_at, items_at, end_within, directory_at, Locates};

use crate::fault::DirectoryFault;
use crate::fields::{read_name, read_text, read_u16};
use crate::file::{File, Limits};
use crate::items::Item;
use pos_bytes::Bytes;
use std::alloc::Global;

/// A file in the bytes that spell it.
#[derive(Drop)]
pub(crate) struct FileText<'a> {
    /// Its name.
    pub name: &'a [u8],
    /// Its bytes.
    pub bytes: &'a [u8],
}

/// Reads a file.
#[tactic(auto, unfolding(crate::specs::Reading::file_at))]
pub(crate) fn read_file(bytes: &[u8]) -> Option<(FileText<'_>, &[u8])>
    ensures { option_map (λ x. (file_of x.0, x.1.now)) result ≡ file_at bytes.now }
{
    let (name, rest) = read_name(bytes)?;
    let (bytes, rest) = read_text(rest)?;
    Some((FileText { name, bytes }, rest))
}

/// Returns the file in memory of its own.
fn copy_file(alloc: Global, text: &FileText<'_>) -> Result<File, DirectoryFault>
    ensures { MatchResult result (λ file. file ≡ file_of text.now) (λ fault. fault ≡ DirectoryFault.NoMemory) }
{
    Ok(File {
        name: Bytes::from_slice(alloc, text.name)?,
        bytes: Bytes::from_slice(alloc, text.bytes)?,
    })
}

impl<'a> Item<'a> for File {
    ghost item_at = { file_at };

    fn read_first(alloc: Global, bytes: &'a [u8]) -> Result<(Self, &'a [u8]), DirectoryFault> {
        let Some((file, rest)) = read_file(bytes) else {
            unreachable!()
        };
        Ok((copy_file(alloc, &file)?, rest))
    }
}

/// Returns the bytes after so many files, if their sizes are at most the room in total.
#[tactic(auto, using(crate::proofs::ItemLemmas::counting))]
fn skip_files(count: u16, bytes: &[u8], room: usize) -> Option<&[u8]>
    ensures { option_map (λ x. x.now) result ≡ end_within room (items_at file_at count bytes.now) }
{
    let mut rest = bytes;
    let mut room = room;
    for _ in 0..count {
        let (file, after) = read_file(rest)?;
        room = room.checked_sub(file.bytes.len())?;
        rest = after;
    }
    Some(rest)
}

/// Returns whether one of so many files has the name, if the bytes begin with so many.
#[tactic(auto, using(crate::proofs::ItemLemmas::counting))]
pub(crate) fn is_used(count: u16, bytes: &[u8], name: &[u8]) -> bool
    ensures { IfSome (items_at file_at count bytes.now) (λ files. result ≡ has_name files.0 name.now) }
{
    let mut rest = bytes;
    for _ in 0..count {
        let Some((file, after)) = read_file(rest) else {
            return false;
        };
        if file.name == name {
            return true;
        }
        rest = after;
    }
    false
}

/// Returns whether no two of so many files have one name, if the bytes begin with so many.
#[tactic(auto, using(crate::proofs::ItemLemmas::counting))]
fn are_distinct(count: u16, bytes: &[u8]) -> bool
    ensures { IfSome (items_at file_at count bytes.now) (λ files. result ≡ are_distinct files.0) }
{
    let mut rest = bytes;
    for i in 0..count {
        let Some((file, after)) = read_file(rest) else {
            return false;
        };
        if is_used(count - (i + 1), after, file.name) {
            return false;
        }
        rest = after;
    }
    true
}

/// Returns the number of files and the bytes that spell them, if the bytes spell a directory.
#[tactic(auto, unfolding(crate::specs::Reading::directory_at), using(crate::proofs::ItemLemmas::counting))]
pub(crate) fn locate_files(limits: Limits, bytes: &[u8]) -> Option<(u16, &[u8])>
    ensures { MatchOption result (directory_at limits bytes.now ≡ None)
        (λ x. Locates file_at (directory_at limits bytes.now) x.0 x.1.now) }
{
    let (count, rest) = read_u16(bytes)?;
    if count > limits.files {
        return None;
    }
    let end = skip_files(count, rest, limits.bytes as usize)?;
    if !end.is_empty() {
        return None;
    }
    if !are_distinct(count, rest) {
        return None;
    }
    Some((count, rest))
}
