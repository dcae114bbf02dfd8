//! The two lists of a profile, read from a document.
ghost use Rattle.std.specs.Prelude.{◌≡◌, ◌+◌, ◌<◌, ◌^◌};
ghost use Rattle.toml.specs.View.{table_view};
ghost use Rattle.pos_profile.specs.declared.root.DocumentFault.TheVariants.{Mistaken};
ghost use Rattle.pos_profile.specs.Mistakes.{ChecksRoot, ReadsDocument, ReadsList, mistake_at};
ghost use Rattle.pos_profile.specs.Tables.{key_of, values_at};

use crate::entry::{Entry, Role};
use crate::entry_list::{Flaw, ListFault, read_entries};
use crate::entry_reader::EntryFault;
use crate::mistake::{Mistake, Place, Reason};
use crate::table::{Keys, is_list, unknown_key, values_at};
use crate::text::Text;
use pos_service::NoMemory;
use std::alloc::Global;
use toml::Table;

/// The devices and the spares of a document.
#[derive(Drop)]
pub(crate) struct Lists {
    pub(crate) devices: Vec<Entry>,
    pub(crate) spares: Vec<Entry>,
}

/// Why a document has no lists.
#[derive(Drop)]
pub(crate) enum DocumentFault {
    /// This isn't sound.
    Mistaken(Mistake),
    /// Memory ran out.
    NoMemory,
}

/// Checks whether the root is sound, and returns what is wrong with it.
fn check_root(alloc: Global, root: &Table) -> Result<(), EntryFault>
    ensures { ChecksRoot (table_view root.now) result }
{
    if let Some(key) = unknown_key(root, Keys::OfRoot) {
        return match Text::copy_of(alloc, key) {
            Ok(key) => Err(EntryFault::Flawed(Reason::UnknownKey(key))),
            Err(NoMemory) => Err(EntryFault::NoMemory),
        };
    }
    if !is_list(root, Role::Device.key()) {
        return Err(EntryFault::Flawed(Reason::NotAnArray(Role::Device)));
    }
    if !is_list(root, Role::Spare.key()) {
        return Err(EntryFault::Flawed(Reason::NotAnArray(Role::Spare)));
    }
    Ok(())
}

/// Returns the entries of a list of the document.
fn read_list(alloc: Global, root: &Table, role: Role) -> Result<Vec<Entry>, ListFault>
    ensures { ReadsList role (values_at (key_of role) (table_view root.now)) result }
{
    read_entries(alloc, role, values_at(root, role.key()))
}

/// Returns the first mistake of a document: a flaw of a list, after so many entries of other lists.
fn listed(before: usize, role: Role, flaw: Flaw) -> DocumentFault
    requires { before + flaw.place < 2 ^ 63 }
    ensures { result ≡ Mistaken (mistake_at before role flaw.place flaw.reason) }
{
    DocumentFault::Mistaken(Mistake {
        number: before + flaw.place + 1,
        place: Place::Listed(role, flaw.place + 1),
        reason: flaw.reason,
    })
}

/// Returns the lists of a document, or its first mistake.
pub(crate) fn read_document(alloc: Global, root: &Table) -> Result<Lists, DocumentFault>
    ensures { ReadsDocument (table_view root.now) result }
{
    match check_root(alloc, root) {
        Ok(()) => {}
        Err(EntryFault::Flawed(reason)) => {
            return Err(DocumentFault::Mistaken(Mistake {
                number: 0,
                place: Place::Root,
                reason,
            }));
        }
        Err(EntryFault::NoMemory) => return Err(DocumentFault::NoMemory),
    }
    let devices = match read_list(alloc, root, Role::Device) {
        Ok(devices) => devices,
        Err(ListFault::Flawed(flaw)) => return Err(listed(0, Role::Device, flaw)),
        Err(ListFault::NoMemory) => return Err(DocumentFault::NoMemory),
    };
    match read_list(alloc, root, Role::Spare) {
        Ok(spares) => Ok(Lists { devices, spares }),
        Err(ListFault::Flawed(flaw)) => Err(listed(devices.len(), Role::Spare, flaw)),
        Err(ListFault::NoMemory) => Err(DocumentFault::NoMemory),
    }
}
