//! A host's file. Only contracts and proofs read it; it takes no memory.
ghost use Rattle.std.specs.Prelude.{◌≡◌};
ghost use Rattle.std.specs.Borrow.{ftrue};
ghost use Rattle.pos_disk.specs.Memory.{Memory, fresh};
ghost use Rattle.kijolvar.specs.Errands.{file_after};

use crate::errands::Errand;
use std::marker::Model;

/// A host's file as a disk in memory, if the host does each errand before it asks for the next.
#[derive(Drop)]
pub struct HostFile {
    pub ghost disk: { Memory },
}

impl Model for HostFile {
    ghost also_owns = { λ _. ftrue };
}

impl HostFile {
    /// Returns a file with these bytes.
    pub fn of(_bytes: &[u8]) -> HostFile
        ensures { result.disk ≡ fresh _bytes.now }
    {
        HostFile {}
    }

    /// Returns the file after an errand was done in it.
    pub fn after(&self, _errand: &Errand) -> HostFile
        ensures { result.disk ≡ file_after _errand.now self.now.disk }
    {
        HostFile {}
    }
}
