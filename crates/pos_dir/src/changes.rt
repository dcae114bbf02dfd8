//! The spelling of changes: a change read from the bytes that spell it, and written.
ghost use Rattle.std.specs.Prelude.{◌≡◌, ◌≤◌, length, None, IsSome, IfSome, MatchOption, MatchResult};
ghost use Rattle.std.specs.Option.{option_map};
ghost use Rattle.pos_dir.specs.Changes.{IsChange};
ghost use Rattle.pos_dir.specs.Room.{HasRoom, Puts};
ghost use Rattle.pos_dir.specs.ChangeTexts.{change_spelling, create_at, delete_at, rename_at, write_at, set_all_at, fields_at, change_at};
ghost use Rattle.pos_dir.specs.Spelling.{change_limit};
ghost use Rattle.pos_dir.specs.Reading.{items_at, group_at, Locates};

use crate::change::{Change, WRITE_LIMIT};
use crate::encoder::{put, put_name, put_text, put_u16, put_u32};
use crate::fault::DirectoryFault;
use crate::fields::{read_byte, read_name, read_text, read_u16, read_u32};
use crate::items::Item;
use pos_bytes::LentBytes;
use std::alloc::Global;

/// Reads a change.
#[tactic(auto, unfolding(crate::specs::ChangeTexts::change_at))]
fn read_change(bytes: &[u8]) -> Option<(Change<'_>, &[u8])>
    ensures { option_map (λ x. (x.0, x.1.now)) result ≡ change_at bytes.now }
{
    let (tag, rest) = read_byte(bytes)?;
    read_fields(tag, rest)
}

/// Reads the fields after a tag.
#[tactic(auto, unfolding(crate::specs::ChangeTexts::fields_at))]
fn read_fields(tag: u8, bytes: &[u8]) -> Option<(Change<'_>, &[u8])>
    ensures { option_map (λ x. (x.0, x.1.now)) result ≡ fields_at tag bytes.now }
{
    match tag {
        1 => read_create(bytes),
        2 => read_delete(bytes),
        3 => read_rename(bytes),
        4 => read_write(bytes),
        5 => read_set_all(bytes),
        _ => None,
    }
}

/// Reads the fields of a Create.
#[tactic(auto, unfolding(crate::specs::ChangeTexts::create_at))]
fn read_create(bytes: &[u8]) -> Option<(Change<'_>, &[u8])>
    ensures { option_map (λ x. (x.0, x.1.now)) result ≡ create_at bytes.now }
{
    let (name, rest) = read_name(bytes)?;
    let (size, rest) = read_u32(rest)?;
    Some((
        Change::Create {
            name: LentBytes::from_slice(name),
            size,
        },
        rest,
    ))
}

/// Reads the fields of a Delete.
#[tactic(auto, unfolding(crate::specs::ChangeTexts::delete_at))]
fn read_delete(bytes: &[u8]) -> Option<(Change<'_>, &[u8])>
    ensures { option_map (λ x. (x.0, x.1.now)) result ≡ delete_at bytes.now }
{
    let (index, rest) = read_u16(bytes)?;
    Some((Change::Delete { index }, rest))
}

/// Reads the fields of a Rename.
#[tactic(auto, unfolding(crate::specs::ChangeTexts::rename_at))]
fn read_rename(bytes: &[u8]) -> Option<(Change<'_>, &[u8])>
    ensures { option_map (λ x. (x.0, x.1.now)) result ≡ rename_at bytes.now }
{
    let (index, rest) = read_u16(bytes)?;
    let (name, rest) = read_name(rest)?;
    Some((
        Change::Rename {
            index,
            name: LentBytes::from_slice(name),
        },
        rest,
    ))
}

/// Reads the fields of a Write.
#[tactic(auto, unfolding(crate::specs::ChangeTexts::write_at))]
fn read_write(bytes: &[u8]) -> Option<(Change<'_>, &[u8])>
    ensures { option_map (λ x. (x.0, x.1.now)) result ≡ write_at bytes.now }
{
    let (index, rest) = read_u16(bytes)?;
    let (offset, rest) = read_u32(rest)?;
    let (bytes, rest) = read_text(rest)?;
    if bytes.len() > WRITE_LIMIT {
        return None;
    }
    Some((
        Change::Write {
            index,
            offset,
            bytes: LentBytes::from_slice(bytes),
        },
        rest,
    ))
}

/// Reads the fields of a SetAll.
#[tactic(auto, unfolding(crate::specs::ChangeTexts::set_all_at))]
fn read_set_all(bytes: &[u8]) -> Option<(Change<'_>, &[u8])>
    ensures { option_map (λ x. (x.0, x.1.now)) result ≡ set_all_at bytes.now }
{
    let (index, rest) = read_u16(bytes)?;
    let (value, rest) = read_byte(rest)?;
    Some((Change::SetAll { index, value }, rest))
}

/// Returns how many bytes a change's spelling has.
pub(crate) fn measure_change(change: &Change<'_>) -> usize
    requires { IsChange change.now }
    ensures size { result ≡ length (change_spelling change.now) }
    ensures bound { result ≤ change_limit }
{
    match change {
        Change::Create { name, size: _ } => 6 + name.as_slice().len(),
        Change::Delete { index: _ } => 3,
        Change::Rename { index: _, name } => 4 + name.as_slice().len(),
        Change::Write {
            index: _,
            offset: _,
            bytes,
        } => 11 + bytes.as_slice().len(),
        Change::SetAll { index: _, value: _ } => 4,
    }
}

/// Writes a change: its tag, and its fields (docs/reference/totals-file.md, "The layouts").
pub(crate) fn put_change(out: &mut Vec<u8>, change: &Change<'_>)
    requires change { IsChange change.now }
    requires room { HasRoom out.old (change_spelling change.now) }
    ensures { Puts out.old (change_spelling change.now) out.new }
{
    match change {
        Change::Create { name, size } => {
            put(out, &[1]);
            put_name(out, name.as_slice());
            put_u32(out, *size);
        }
        Change::Delete { index } => {
            put(out, &[2]);
            put_u16(out, *index);
        }
        Change::Rename { index, name } => {
            put(out, &[3]);
            put_u16(out, *index);
            put_name(out, name.as_slice());
        }
        Change::Write {
            index,
            offset,
            bytes,
        } => {
            put(out, &[4]);
            put_u16(out, *index);
            put_u32(out, *offset);
            put_text(out, bytes.as_slice());
        }
        Change::SetAll { index, value } => {
            put(out, &[5]);
            put_u16(out, *index);
            put(out, &[*value]);
        }
    }
}

impl<'a> Item<'a> for Change<'a> {
    ghost item_at = { change_at };

    fn read_first(_alloc: Global, bytes: &'a [u8]) -> Result<(Self, &'a [u8]), DirectoryFault> {
        match read_change(bytes) {
            Some(first) => Ok(first),
            None => unreachable!(),
        }
    }
}

/// Returns the bytes after so many changes.
#[tactic(auto, using(crate::proofs::ItemLemmas::counting))]
fn skip_changes(count: u16, bytes: &[u8]) -> Option<&[u8]>
    ensures { option_map (λ x. x.now) result ≡ option_map (λ x. x.1) (items_at change_at count bytes.now) }
{
    let mut rest = bytes;
    for _ in 0..count {
        let (_change, after) = read_change(rest)?;
        rest = after;
    }
    Some(rest)
}

/// Returns the number of changes and the bytes that spell them, if the bytes spell a group.
#[tactic(auto, unfolding(crate::specs::Reading::group_at))]
pub(crate) fn locate_changes(bytes: &[u8]) -> Option<(u16, &[u8])>
    ensures { MatchOption result (group_at bytes.now ≡ None)
        (λ x. Locates change_at (group_at bytes.now) x.0 x.1.now) }
{
    let (count, rest) = read_u16(bytes)?;
    let end = skip_changes(count, rest)?;
    if !end.is_empty() {
        return None;
    }
    Some((count, rest))
}
