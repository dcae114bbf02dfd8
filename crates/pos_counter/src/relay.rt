//! The disk of a counter's totals, and the errands that it keeps for its owner.
ghost use Rattle.std.specs.Prelude.{◌≡◌};
ghost use Rattle.pos_disk.specs.Keeps.{KeepsState};

use crate::counter::Counter;
use pos_disk::{Disk, Relay};

impl<D: Disk, P> Counter<D, P> {
    /// Returns the disk of the totals.
    pub fn disk(&self) -> &D
        ensures { result.now ≡ self.now.totals.disk }
    {
        self.totals.disk()
    }
}

impl<D: Relay, P> Counter<D, P> {
    /// Takes the oldest errand that the disk keeps for its owner, and returns it. Everything else is as it was.
    pub fn next(&mut self) -> Option<D::Errand>
        ensures same { self.new ≡ record self.old { totals = record self.old.totals { disk = self.new.totals.disk } } }
        ensures state { KeepsState D.Disk self.old.totals.disk self.new.totals.disk }
        ensures takes { D.takes self.old.totals.disk self.new.totals.disk result }
    {
        self.totals.next()
    }
}
