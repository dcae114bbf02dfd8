//! The disk of the totals, and the errands that it keeps for its owner.
ghost use Rattle.std.specs.Prelude.{◌≡◌};
ghost use Rattle.pos_disk.specs.Keeps.{KeepsState};

use crate::totals::Totals;
use pos_disk::{Disk, Relay};

impl<D: Disk> Totals<D> {
    /// Returns the disk, to be looked at.
    pub fn disk(&self) -> &D
        ensures { result.now ≡ self.now.disk }
    {
        self.store.disk()
    }
}

impl<D: Relay> Totals<D> {
    /// Takes out the oldest errand that the disk keeps for its owner, and returns it, or `None` if there is none. All
    /// else is as it was.
    pub fn next(&mut self) -> Option<D::Errand>
        ensures same { self.new ≡ record self.old { disk = self.new.disk } }
        ensures state { KeepsState D.Disk self.old.disk self.new.disk }
        ensures takes { D.takes self.old.disk self.new.disk result }
    {
        self.store.next()
    }
}
