//! The moments that a disk in memory has been through. Only contracts and proofs read them; they take no memory.
ghost use Rattle.std.specs.Prelude.{◌≡◌, ◌++◌, [], ◌∷◌, List};
ghost use Rattle.std.specs.Borrow.{ftrue};
ghost use Rattle.pos_disk.specs.Memory.{Moment};
ghost use Rattle.pos_disk.specs.Stamps.{moment_of};

use std::marker::Model;

// The moments, the oldest first.
#[derive(Drop)]
pub(crate) struct Past {
    pub ghost moments: { List Moment },
}

impl Model for Past {
    ghost also_owns = { λ _. ftrue };
}

impl Past {
    // No moment has gone by.
    pub(crate) fn new() -> Past
        ensures { result.moments ≡ [] }
    {
        Past {}
    }

    // One moment more has gone by: that of a disk with these bytes, whose loose places have this stamp.
    pub(crate) fn and(&self, _bytes: &[u8], _stamps: &[u32], _stamp: &u32) -> Past
        ensures { result.moments ≡ self.now.moments ++ moment_of _bytes.now _stamps.now _stamp.now ∷ [] }
    {
        Past {}
    }
}
