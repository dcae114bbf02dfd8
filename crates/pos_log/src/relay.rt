//! The disk of a log, and the errands that it keeps for its owner.
ghost use Rattle.std.specs.Prelude.{◌≡◌};
ghost use Rattle.pos_disk.specs.Keeps.{KeepsState};
ghost use Rattle.pos_log.specs.Logs.{IsLogReady, over};

use crate::log::Log;
use pos_disk::{Disk, Relay};

impl<D: Disk> Log<D> {
    /// Returns the disk, to be looked at.
    pub fn disk(&self) -> &D
        ensures { result.now ≡ self.now.images.disk }
    {
        self.images.disk()
    }
}

impl<D: Relay> Log<D> {
    /// Takes out the oldest errand that the disk keeps for its owner, and returns it, or `None` if there is none. All
    /// else is as it was.
    pub fn next(&mut self) -> Option<D::Errand>
        ensures same { self.new ≡ over self.old self.new.images.disk }
        ensures state { KeepsState D.Disk self.old.images.disk self.new.images.disk }
        ensures takes { D.takes self.old.images.disk self.new.images.disk result }
        ensures ready { IsLogReady D.Disk self.old → IsLogReady D.Disk self.new }
    {
        self.images.next()
    }
}
