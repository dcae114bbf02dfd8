//! Groups of changes.
ghost use Rattle.std.specs.Prelude.{◌≡◌, [], length, slice_get};
ghost use Rattle.std.specs.Option.{option_copied};
ghost use Rattle.pos_dir.specs.Calls.{Pushes};

use crate::change::{Change, find_flaw};
use crate::fault::DirectoryFault;
use std::alloc::Global;
use std::marker::Model;

/// The most changes of a group.
const GROUP_LIMIT: usize = 65_535;

/// A list of changes, to be applied in order, all or none, as a transaction of Hard Totals is (UnifiedPOS 1.16, Hard
/// Totals). Contracts see the list.
#[derive(Drop)]
pub struct Group<'a> {
    pub(crate) changes: Vec<Change<'a>>,
}

impl<'a> Model for Group<'a> {
    ghost use Rattle.std.specs.Prelude.{List};
    ghost use Rattle.pos_dir.specs.declared.change.Change.{Change};
    ghost use Rattle.pos_dir.specs.Changes.{IsGroup};

    ghost Value = { List Change };

    ghost view = { λ group. group.changes.items };

    ghost invariant = { λ group. IsGroup group.changes.items };
}

impl<'a> Group<'a> {
    /// Returns a group without changes.
    pub fn new(alloc: Global) -> Self
        ensures { result ≡ [] }
    {
        Group {
            changes: Vec::new(alloc),
        }
    }

    /// Returns how many changes there are.
    pub fn len(&self) -> usize
        ensures { result ≡ length self.now }
    {
        self.changes.len()
    }

    /// Returns the changes in order.
    pub fn as_slice(&self) -> &[Change<'a>]
        ensures { result.now ≡ self.now }
    {
        &self.changes
    }

    /// Returns the first change, or `None` if there is none.
    pub fn first(&self) -> Option<&Change<'a>>
        ensures { option_copied result ≡ slice_get self.now 0 }
    {
        self.changes.get(0)
    }

    /// Adds a change after the others.
    ///
    /// # Errors
    ///
    /// The first of these that holds:
    ///
    /// - `BadName` if a name isn't 1 to 10 bytes of 0x20 to 0x7F.
    /// - `Range` if a Write has more than 65,536 bytes.
    /// - `NoRoom` if the group has 65,535 changes.
    /// - `NoMemory` if memory ran out.
    ///
    /// The group is unchanged then, and the change is returned beside the fault.
    pub fn push(&mut self, change: Change<'a>) -> Result<(), (DirectoryFault, Change<'a>)>
        ensures { Pushes self.old change.entry result self.new }
    {
        if let Some(fault) = find_flaw(&change) {
            return Err((fault, change));
        }
        if self.changes.len() >= GROUP_LIMIT {
            return Err((DirectoryFault::NoRoom, change));
        }
        match self.changes.push(change) {
            Ok(()) => Ok(()),
            Err(refused) => Err((DirectoryFault::NoMemory, refused.value)),
        }
    }
}
