//! The disk of the images, and the errands that it keeps for its owner.
ghost use Rattle.std.specs.Prelude.{◌≡◌};
ghost use Rattle.pos_disk.specs.Keeps.{KeepsState};
ghost use Rattle.pos_image.specs.Images.{IsReady};
ghost use Rattle.pos_image.specs.Spans.{IsWritable};

use crate::images::Images;
use pos_disk::{Disk, Relay};

impl<D: Disk> Images<D> {
    /// Returns the disk, to be looked at.
    pub fn disk(&self) -> &D
        ensures { result.now ≡ self.now.disk }
    {
        &self.disk
    }
}

impl<D: Relay> Images<D> {
    /// Takes out the oldest errand that the disk keeps for its owner, and returns it, or `None` if there is none. All
    /// else is as it was.
    pub fn next(&mut self) -> Option<D::Errand>
        ensures same { self.new ≡ record self.old { disk = self.new.disk } }
        ensures state { KeepsState D.Disk self.old.disk self.new.disk }
        ensures takes { D.takes self.old.disk self.new.disk result }
        ensures ready { IsReady D.Disk self.old → IsReady D.Disk self.new }
        ensures writable { IsWritable D.Disk self.old → IsWritable D.Disk self.new }
    {
        self.disk.next()
    }
}
