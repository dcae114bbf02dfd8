//! The disk of a store, and the errands that it keeps for its owner.
ghost use Rattle.std.specs.Prelude.{◌≡◌};
ghost use Rattle.pos_disk.specs.Keeps.{KeepsState};

use crate::medium::StoreMedium;
use crate::store::Store;
use pos_disk::{Disk, Relay};

impl<D: Disk> Store<D> {
    /// Returns the disk, to be looked at.
    pub fn disk(&self) -> &D
        ensures { result.now ≡ self.now.disk }
    {
        match &self.medium {
            StoreMedium::Off(disk, _) => disk,
            StoreMedium::Ready(log, _) => log.disk(),
        }
    }
}

impl<D: Relay> Store<D> {
    /// Takes out the oldest errand that the disk keeps for its owner, and returns it, or `None` if there is none. All
    /// else is as it was.
    pub fn next(&mut self) -> Option<D::Errand>
        ensures same { self.new ≡ record self.old { disk = self.new.disk } }
        ensures state { KeepsState D.Disk self.old.disk self.new.disk }
        ensures takes { D.takes self.old.disk self.new.disk result }
    {
        match &mut self.medium {
            StoreMedium::Off(disk, _) => disk.next(),
            StoreMedium::Ready(log, _) => log.next(),
        }
    }
}
