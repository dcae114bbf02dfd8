//! The one spelling of a directory and of a group.
ghost use Rattle.std.specs.Prelude.{◌≡◌, ◌*◌, ◌<◌, ◌≤◌, ◌^◌, [], length, vec_capacity, MatchResult};
ghost use Rattle.std.specs.Int.{w16, w32, to_be_bytes};
ghost use Rattle.std.specs.List.{flat_map};
ghost use Rattle.pos_dir.specs.Files.{IsDirectory};
ghost use Rattle.pos_dir.specs.Room.{HasRoom, Puts};
ghost use Rattle.pos_dir.specs.Changes.{group_limit, IsGroup};
ghost use Rattle.pos_dir.specs.Fields.{name_spelling, text_spelling};
ghost use Rattle.pos_dir.specs.ChangeTexts.{change_spelling};
ghost use Rattle.pos_dir.specs.Spelling.{body_limit, change_limit, spelling, group_spelling, file_spelling};

use crate::change::Change;
use crate::changes::{measure_change, put_change};
use crate::directory::Directory;
use crate::fault::DirectoryFault;
use crate::file::{File, Limits};
use crate::group::Group;
use crate::laws::{is_directory, is_group};
use std::alloc::Global;

/// The bytes of a count.
const COUNT_SIZE: usize = 2;

/// The most bytes of a file's spelling beside its own bytes.
const FILE_HEAD: usize = 15;

/// The most bytes of a directory's spelling.
pub(crate) fn limit_body(limits: Limits) -> usize
    ensures { result ≡ body_limit limits }
{
    COUNT_SIZE + FILE_HEAD * limits.files as usize + limits.bytes as usize
}

/// Returns the one spelling of a directory, which is a body of the totals disk: at most 9,154 bytes within the limits
/// of layout 1, 69,288 within those of layout 2.
///
/// It begins with the number of files in two bytes. Then each file follows in index order: the length of its name in
/// one byte, the name, its size in four bytes, and its bytes. Numbers are big-endian.
///
/// # Errors
///
/// `NoMemory` if memory ran out.
pub fn encode(alloc: Global, directory: &Directory) -> Result<Vec<u8>, DirectoryFault>
    ensures directory { IsDirectory directory.now.limits directory.now.files }
    ensures length { length (spelling directory.now.files) ≤ body_limit directory.now.limits }
    ensures spelling { MatchResult result (λ bytes. bytes.items ≡ spelling directory.now.files)
        (λ fault. fault ≡ DirectoryFault.NoMemory) }
{
    is_directory(directory);
    let mut body = Vec::with_capacity(alloc, limit_body(directory.limits))?;
    put_directory(&mut body, directory);
    Ok(body)
}

/// Writes a directory.
pub(crate) fn put_directory(out: &mut Vec<u8>, directory: &Directory)
    requires empty { out.old.items ≡ [] }
    requires room { body_limit directory.now.limits ≤ vec_capacity out.old }
    ensures spelling { out.new.items ≡ spelling directory.now.files }
    ensures directory { IsDirectory directory.now.limits directory.now.files }
    ensures length { length (spelling directory.now.files) ≤ body_limit directory.now.limits }
{
    is_directory(directory);
    let files = directory.files.as_slice();
    put_u16(out, files.len() as u16);
    for file in files {
        put_file(out, file);
    }
}

/// Returns the one spelling of a group. It begins with the number of changes in two bytes. Then each change follows: a
/// tag of one byte and its fields (docs/reference/totals-file.md, "The layouts"). Numbers are big-endian; a file is
/// named by its index in two bytes.
///
/// # Errors
///
/// `NoMemory` if memory ran out.
pub fn encode_group(alloc: Global, group: &Group<'_>) -> Result<Vec<u8>, DirectoryFault>
    ensures group { IsGroup group.now }
    ensures spelling { MatchResult result (λ bytes. bytes.items ≡ group_spelling group.now)
        (λ fault. fault ≡ DirectoryFault.NoMemory) }
{
    is_group(group);
    let mut out = Vec::new(alloc);
    encode_changes(&mut out, group.as_slice())?;
    Ok(out)
}

/// Writes the one spelling of a group of these changes over a buffer, in the place of what the buffer has.
///
/// # Errors
///
/// `NoMemory` if the buffer is too small and memory ran out. The buffer is empty then.
pub fn encode_changes(out: &mut Vec<u8>, changes: &[Change<'_>]) -> Result<(), DirectoryFault>
    requires { IsGroup changes.now }
    ensures spelling { MatchResult result (λ done. out.new.items ≡ group_spelling changes.now)
        (λ fault. (fault ≡ DirectoryFault.NoMemory) × (out.new.items ≡ [])) }
{
    out.clear();
    out.reserve(COUNT_SIZE + measure_changes(changes))?;
    put_u16(out, changes.len() as u16);
    for change in changes {
        put_change(out, change);
    }
    Ok(())
}

/// Returns how many bytes the spelling of a group of these changes has. It takes no memory.
pub fn measure_group(changes: &[Change<'_>]) -> usize
    requires { IsGroup changes.now }
    ensures { result ≡ length (group_spelling changes.now) }
{
    COUNT_SIZE + measure_changes(changes)
}

/// Returns how many bytes the spellings of changes have in total.
fn measure_changes(changes: &[Change<'_>]) -> usize
    requires { IsGroup changes.now }
    ensures size { result ≡ length (flat_map change_spelling changes.now) }
    ensures bound { result ≤ change_limit * group_limit }
{
    let mut size = 0;
    for change in changes {
        size += measure_change(change);
    }
    size
}

/// Writes bytes.
pub(crate) fn put(out: &mut Vec<u8>, bytes: &[u8])
    requires { HasRoom out.old bytes.now }
    ensures { Puts out.old bytes.now out.new }
{
    if out.extend_from_slice(bytes).is_err() {
        unreachable!();
    }
}

/// Writes a big-endian number of two bytes.
pub(crate) fn put_u16(out: &mut Vec<u8>, number: u16)
    requires room { HasRoom out.old (to_be_bytes w16 number) }
    ensures { Puts out.old (to_be_bytes w16 number) out.new }
{
    put(out, &number.to_be_bytes());
}

/// Writes a big-endian number of four bytes.
pub(crate) fn put_u32(out: &mut Vec<u8>, number: u32)
    requires room { HasRoom out.old (to_be_bytes w32 number) }
    ensures { Puts out.old (to_be_bytes w32 number) out.new }
{
    put(out, &number.to_be_bytes());
}

/// Writes a name after its length.
pub(crate) fn put_name(out: &mut Vec<u8>, name: &[u8])
    requires name { length name.now < 256 }
    requires room { HasRoom out.old (name_spelling name.now) }
    ensures { Puts out.old (name_spelling name.now) out.new }
{
    put(out, &[name.len() as u8]);
    put(out, name);
}

/// Writes bytes after their number.
pub(crate) fn put_text(out: &mut Vec<u8>, bytes: &[u8])
    requires bytes { length bytes.now < 2 ^ 32 }
    requires room { HasRoom out.old (text_spelling bytes.now) }
    ensures { Puts out.old (text_spelling bytes.now) out.new }
{
    put_u32(out, bytes.len() as u32);
    put(out, bytes);
}

/// Writes a file.
fn put_file(out: &mut Vec<u8>, file: &File)
    requires name { length file.now.name < 256 }
    requires bytes { length file.now.bytes < 2 ^ 32 }
    requires room { HasRoom out.old (file_spelling file.now) }
    ensures { Puts out.old (file_spelling file.now) out.new }
{
    put_name(out, file.name.as_slice());
    put_text(out, file.bytes.as_slice());
}
