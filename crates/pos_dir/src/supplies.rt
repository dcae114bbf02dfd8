//! The memory that changes take. All of it is made before the first is carried out, so that carrying them out can't
//! fail.
ghost use Rattle.std.specs.Prelude.{◌≡◌, ◌++◌, List, replicate, MatchResult};
ghost use Rattle.std.specs.List.{flat_map};
ghost use Rattle.std.specs.Vec.Iter.{into_iter_items};
ghost use Rattle.pos_dir.specs.declared.supplies.Supply.{Supply};
ghost use Rattle.pos_dir.specs.Supplies.{supplies_of, IsSupplied};

use crate::change::Change;
use crate::fault::DirectoryFault;
use crate::file::File;
use pos_bytes::{Bytes, LentBytes};
use std::alloc::Global;
use std::vec::IntoIter;

/// What a change takes of memory.
#[derive(Drop)]
pub(crate) enum Supply {
    /// The file that it adds.
    NewFile(File),
    /// The name that it gives.
    NewName(Bytes),
}

/// What changes take of memory, in their order.
pub(crate) fn make_supplies(
    alloc: Global,
    changes: &[Change<'_>],
) -> Result<Vec<Supply>, DirectoryFault>
    ensures { MatchResult result (λ supplies. supplies.items ≡ flat_map supplies_of changes.now)
        (λ fault. fault ≡ DirectoryFault.NoMemory) }
{
    let mut supplies = Vec::new(alloc);
    for change in changes {
        if let Some(supply) = make_supply(alloc, change)? {
            supplies.push(supply)?;
        }
    }
    Ok(supplies)
}

/// What a change takes of memory.
fn make_supply(alloc: Global, change: &Change<'_>) -> Result<Option<Supply>, DirectoryFault>
    ensures { MatchResult result (IsSupplied change.now) (λ fault. fault ≡ DirectoryFault.NoMemory) }
{
    match change {
        Change::Create { name, size } => Ok(Some(Supply::NewFile(make_file(alloc, name, *size)?))),
        Change::Rename { index: _, name } => Ok(Some(Supply::NewName(copy_name(alloc, name)?))),
        _ => Ok(None),
    }
}

/// A file of zero bytes.
fn make_file(alloc: Global, name: &LentBytes<'_>, size: u32) -> Result<File, DirectoryFault>
    ensures { MatchResult result (λ file. file ≡ record { name = name.now; bytes = replicate size 0 })
        (λ fault. fault ≡ DirectoryFault.NoMemory) }
{
    Ok(File {
        name: copy_name(alloc, name)?,
        bytes: Bytes::from_vec(vec![in alloc; 0; size as usize]?),
    })
}

/// The same name in memory of its own.
fn copy_name(alloc: Global, name: &LentBytes<'_>) -> Result<Bytes, DirectoryFault>
    ensures { MatchResult result (λ copy. copy ≡ name.now) (λ fault. fault ≡ DirectoryFault.NoMemory) }
{
    Ok(Bytes::from_slice(alloc, name.as_slice())?)
}

/// What a change takes, the first of what is left.
pub(crate) fn take_supply(change: &Change<'_>, left: &mut IntoIter<Supply>) -> Option<Supply>
    requires { (rest : List Supply) × (into_iter_items left.old ≡ supplies_of change.now ++ rest) }
    ensures supplied { IsSupplied change.now result }
    ensures left { (rest : List Supply) → into_iter_items left.old ≡ supplies_of change.now ++ rest
        → into_iter_items left.new ≡ rest }
{
    match change {
        Change::Create { .. } | Change::Rename { .. } => left.next(),
        _ => None,
    }
}
