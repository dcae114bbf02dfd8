//! What is known of a disk in memory. Only contracts and proofs read it; it takes no memory.
ghost use Rattle.std.specs.Prelude.{◌≡◌};
ghost use Rattle.std.specs.Borrow.{ftrue};
ghost use Rattle.pos_disk.specs.Memory.{Memory, fresh, synced, written};

use std::marker::Model;

// The disk: what a read gives, which places are loose, the bytes at the last sync, and the moments before.
#[derive(Drop)]
pub(crate) struct Known {
    pub ghost memory: { Memory },
}

impl Model for Known {
    ghost also_owns = { λ _. ftrue };
}

impl Known {
    // Returns the disk with these bytes, at rest.
    pub(crate) fn fresh(_bytes: &[u8]) -> Known
        ensures { result.memory ≡ fresh _bytes.now }
    {
        Known {}
    }

    // Returns the disk after bytes were written at a place.
    pub(crate) fn written(&self, _at: &u64, _bytes: &[u8]) -> Known
        ensures { result.memory ≡ written _at.now _bytes.now self.now.memory }
    {
        Known {}
    }

    // Returns the disk after a sync.
    pub(crate) fn synced(&self) -> Known
        ensures { result.memory ≡ synced self.now.memory }
    {
        Known {}
    }
}
