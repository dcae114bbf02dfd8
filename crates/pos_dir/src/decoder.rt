//! A directory and a group, read from the bytes that spell them.
ghost use Rattle.std.specs.Prelude.{◌≤◌};
ghost use Rattle.pos_dir.specs.declared.file.TheConstants.{LAYOUT_2};
ghost use Rattle.pos_dir.specs.Calls.{Decodes, DecodesGroup};

use crate::changes::locate_changes;
use crate::directory::Directory;
use crate::fault::DirectoryFault;
use crate::file::Limits;
use crate::files::locate_files;
use crate::group::Group;
use crate::items::collect_items;
use std::alloc::Global;

/// Returns the directory, within limits of at most 250 files, whose spelling (`encode`) the bytes are, all of them.
///
/// # Errors
///
/// - `Malformed` if the bytes spell no such directory. Bytes are missing or left over, a name is bad or used twice, or
///   there are more files or bytes than the limits allow.
/// - `NoMemory` if they do spell one, and memory ran out.
pub fn decode(alloc: Global, bytes: &[u8], limits: Limits) -> Result<Directory, DirectoryFault>
    requires { limits.files ≤ LAYOUT_2.files }
    ensures { Decodes limits bytes.now result }
{
    let Some((count, rest)) = locate_files(limits, bytes) else {
        return Err(DirectoryFault::Malformed);
    };
    let files = collect_items(alloc, count, rest)?;
    Ok(Directory { limits, files })
}

/// Returns the group whose spelling (`encode_group`) the bytes are, all of them. The names and bytes of its changes are
/// lent from these bytes.
///
/// # Errors
///
/// - `Malformed` if the bytes spell no group. Bytes are missing or left over, a tag is unknown, a name is bad, or a
///   Write has more than 65,536 bytes.
/// - `NoMemory` if they do spell one, and memory ran out.
pub fn decode_group(alloc: Global, bytes: &[u8]) -> Result<Group<'_>, DirectoryFault>
    ensures { DecodesGroup bytes.now result }
{
    let Some((count, rest)) = locate_changes(bytes) else {
        return Err(DirectoryFault::Malformed);
    };
    let changes = collect_items(alloc, count, rest)?;
    Ok(Group { changes })
}
