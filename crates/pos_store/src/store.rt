//! A store: the files of a totals disk, and their changes.
ghost use Rattle.std.specs.Prelude.{◌≡◌, ◌<◌, ◌∷◌, [], None, length, IfSome};

use crate::commits::commit_group;
use crate::fault::StoreFault;
use crate::medium::StoreMedium;
use crate::migrations::migrate_files;
use crate::recoveries::recover_files;
use core::mem::replace_with;
use core::slice::from_ref;
use pos_dir::laws::{is_group, is_group_alone};
use pos_dir::{Change, Directory, DirectoryFault, Group, check_group};
use pos_disk::Disk;
use pos_image::Layout;
use std::alloc::Global;
use std::marker::Model;

/// The files of a totals disk, changed by whole groups.
///
/// Contracts see the disk, its layout and the place after its records. They see the files with their sequence, or
/// `Off`. docs/reference/totals-file.md, "The log" and "The layouts".
#[derive(Drop)]
pub struct Store<D: Disk> {
    alloc: Global,
    pub(crate) medium: StoreMedium<D>,
    // What was written last as a record. It is kept for its memory.
    text: Vec<u8>,
}

impl<D: Disk> Model for Store<D> {
    ghost use Rattle.pos_store.specs.StoreViews.{StoreView, view_of, HasItsFiles};

    ghost Value = { StoreView D };

    ghost view = { λ s. view_of s.medium };

    ghost invariant = { λ s. HasItsFiles D.Disk s.medium };
}

impl<D: Disk> Store<D> {
    ghost use Rattle.std.specs.Option.{option_map};
    ghost use Rattle.pos_dir.specs.Changes.{flaw_of, IsGroup};
    ghost use Rattle.pos_disk.specs.State.{IsAtRest};
    ghost use Rattle.pos_image.specs.declared.layout.Layout.TheVariants.{Layout1};
    ghost use Rattle.pos_store.specs.StoreViews.{Off, WhenReady, files_of, mode_of};
    ghost use Rattle.pos_store.specs.Commits.{Commits, CommitsIfApplicable, IsApplicable, refusal_of};
    ghost use Rattle.pos_store.specs.Layouts.{limits_of};
    ghost use Rattle.pos_store.specs.Migrations.{Migrates};
    ghost use Rattle.pos_store.specs.Recoveries.{Recovers};

    /// Returns a store over a disk. It is off: nothing is read yet.
    pub fn new(alloc: Global, disk: D) -> Store<D>
        ensures { result ≡ record { disk = disk; layout = Layout1; state = Off; tail = 0 } }
    {
        Store {
            alloc,
            medium: StoreMedium::Off(disk, Layout::Layout1),
            text: Vec::new(alloc),
        }
    }

    /// Reads the files of the disk if the store is off. If it is ready, the call succeeds and does nothing.
    ///
    /// It writes nothing to the disk. So a recovery may crash too, and you may call it again.
    ///
    /// # Errors
    ///
    /// - `Unformatted` if the disk has no image, or fewer than 327,680 bytes.
    /// - `Damaged` if the image is damaged or its body spells no directory. A record after it that doesn't fit, or
    ///   whose group is malformed, empty or not applicable, is damage too.
    /// - `NoMemory` if memory ran out.
    /// - `Device` if the disk failed.
    ///
    /// The store is still off then.
    pub fn recover(&mut self) -> Result<(), StoreFault>
        ensures { Recovers D.Disk self.old result self.new }
    {
        replace_with(&mut self.medium, self.alloc, recover_files)
    }

    /// Checks a group, which isn't empty, and applies all its changes or none.
    ///
    /// At `Ok` they are on the disk: as a record after the current image if it fits there, which leaves the sequence,
    /// else in a new image. An append takes no time for the bytes of other files.
    ///
    /// # Errors
    ///
    /// - `Off` if the store is off.
    /// - `Refused` if a change isn't applicable to the files that those before it made. It has the first fault:
    ///   `NoFile`, `Exists`, `Range` or `NoRoom`.
    /// - `NoMemory` if memory ran out.
    /// - `Exhausted` if the group doesn't fit and the sequence is the last one.
    /// - `Device` if the disk failed. The store is off, and the next recovery finds the files before the group or those
    ///   after it.
    ///
    /// Any refusal but `Device` changes nothing and doesn't use the disk.
    pub fn commit(&mut self, group: &Group<'_>) -> Result<(), StoreFault>
        requires some { 0 < length group.now }
        ensures { CommitsIfApplicable D.Disk self.old group.now result self.new }
    {
        if let Some(fault) = self.refusal(group) {
            return Err(StoreFault::Refused(fault));
        }
        self.commit_applicable(group)
    }

    // Returns why the files refuse a group, or `None` if they don't. While the store is off it returns `None`.
    fn refusal(&self, group: &Group<'_>) -> Option<DirectoryFault>
        ensures { result ≡ refusal_of self.now.layout self.now.state group.now }
    {
        check_group(self.files()?, group).err()
    }

    /// Commits a group as `commit` does, without checking it again. The caller knows that it is applicable to the
    /// files: `pos_dir::check_group` returns whether it is.
    ///
    /// # Errors
    ///
    /// Those of `commit`, except `Refused`.
    pub fn commit_applicable(&mut self, group: &Group<'_>) -> Result<(), StoreFault>
        requires some { 0 < length group.now }
        requires applicable { IsApplicable self.old.layout self.old.state group.now }
        ensures { Commits D.Disk self.old group.now result self.new }
    {
        is_group(group);
        self.commit_changes(group.as_slice())
    }

    /// Commits one change as `commit_applicable` commits a group of it alone.
    ///
    /// # Errors
    ///
    /// Those of `commit_applicable`.
    pub fn commit_change(&mut self, change: &Change<'_>) -> Result<(), StoreFault>
        requires flawless { flaw_of change.now ≡ None }
        requires applicable { IsApplicable self.old.layout self.old.state (change.now ∷ []) }
        ensures { Commits D.Disk self.old (change.now ∷ []) result self.new }
    {
        is_group_alone(change);
        self.commit_changes(from_ref(change))
    }

    // Commits a group of these changes.
    fn commit_changes(&mut self, changes: &[Change<'_>]) -> Result<(), StoreFault>
        requires some { 0 < length changes.now }
        requires group { IsGroup changes.now }
        requires applicable { IsApplicable self.old.layout self.old.state changes.now }
        ensures { Commits D.Disk self.old changes.now result self.new }
    {
        commit_group(&mut self.medium, self.alloc, &mut self.text, changes)
    }

    /// Moves a disk of layout 1 to layout 2, in place. There is no way back to layout 1.
    ///
    /// The files stay, and are in the first image of layout 2 then, with sequence 1. The slots of layout 1 are not
    /// written. A crash at any moment leaves the files by one layout or the other.
    ///
    /// # Errors
    ///
    /// - `Off` if the store is off.
    /// - `AlreadyLayout2` if the disk has layout 2.
    /// - `NoMemory` if memory ran out.
    /// - `Device` if the disk failed. The store is off, and the next recovery finds the files by layout 1 or by layout
    ///   2.
    ///
    /// Any refusal but `Device` changes nothing and doesn't use the disk.
    pub fn migrate(&mut self) -> Result<(), StoreFault>
        ensures { Migrates D.Disk self.old result self.new }
    {
        replace_with(&mut self.medium, self.alloc, migrate_files)
    }

    /// Returns the files, within the limits of the layout, or `None` while the store is off.
    pub fn files(&self) -> Option<&Directory>
        ensures files { option_map (λ directory. directory.now.files) result ≡ files_of self.now.state }
        ensures limits { IfSome result (λ directory. directory.now.limits ≡ limits_of self.now.layout) }
    {
        match &self.medium {
            StoreMedium::Off(_, _) => None,
            StoreMedium::Ready(_, directory) => Some(directory),
        }
    }

    /// Returns the layout of the disk, as it was found or made last. Before the first recovery it is layout 1.
    pub fn layout(&self) -> Layout
        ensures { result ≡ self.now.layout }
    {
        match &self.medium {
            StoreMedium::Off(_, layout) => *layout,
            StoreMedium::Ready(log, _) => log.layout(),
        }
    }

    /// Returns whether the store is ready, and with which sequence.
    pub fn mode(&self) -> Mode
        ensures { result ≡ mode_of self.now.state }
    {
        match &self.medium {
            StoreMedium::Off(_, _) => Mode::Off,
            StoreMedium::Ready(log, _) => Mode::Ready {
                sequence: log.sequence(),
            },
        }
    }

    /// Returns the disk as it is, at rest if the store is ready.
    pub fn into_disk(self) -> D
        ensures disk { result ≡ self.disk }
        ensures at_rest { D.honest self.disk → WhenReady self.state (IsAtRest (D.state self.disk)) }
    {
        let Store {
            alloc: _,
            medium,
            text: _,
        } = self;
        match medium {
            StoreMedium::Off(disk, _) => disk,
            StoreMedium::Ready(log, _) => log.into_images().into_disk(),
        }
    }
}

/// Whether the files of a store are known.
#[derive(Clone, Copy, PartialEq, Eq)]
pub enum Mode {
    /// They aren't: the disk was not read yet, or it failed in a change.
    Off,
    /// They are.
    Ready {
        /// The sequence of the current image: 1 after formatting, and one more with each new image.
        sequence: u64,
    },
}
