//! The bytes in memory that a mirror shows.
ghost use Rattle.std.specs.Prelude.{◌≡◌, ◌≤◌, ◌+◌, ◌↔◌, ℕ, Ok, length};
ghost use Rattle.pos_disk.specs.State.{IsBytes, Reads, Syncs, Writes};
ghost use Rattle.pos_disk.specs.Memory.{fresh, state_of, synced, written};
ghost use Rattle.pos_disk.specs.Fuse.{Spoils};
ghost use Rattle.pos_mirror.specs.Calls.{Rereads};

use crate::known::Known;
use pos_disk::{Disk, DiskFault};
use std::marker::Model;

// The bytes that a mirror shows. For contracts they are a disk in memory. A mirror is never crashed, so only contracts
// know which places are loose, what was settled and the moments before.
#[derive(Drop)]
pub(crate) struct Shown {
    bytes: Vec<u8>,
    known: Known,
}

impl Model for Shown {
    ghost use Rattle.pos_disk.specs.Memory.{Memory};
    ghost use Rattle.pos_mirror.specs.Shown.{IsShown};

    ghost Value = { Memory };

    ghost view = { λ s. s.known.memory };

    ghost invariant = { λ s. IsShown s.bytes.items s.known.memory };
}

// Says that the items of a slice are bytes, by its type.
fn are_bytes(bytes: &[u8])
    ensures { IsBytes bytes.now }
{
    let _count = bytes.len();
}

impl Shown {
    // Returns these bytes, at rest.
    pub(crate) fn new(bytes: Vec<u8>) -> Shown
        ensures { result ≡ fresh bytes.items }
    {
        let known = Known::fresh(&bytes);
        Shown { bytes, known }
    }

    // Returns the bytes.
    pub(crate) fn bytes(&self) -> &[u8]
        ensures { result.now ≡ self.now.present.reading }
    {
        &self.bytes
    }

    // Returns how many bytes there are.
    pub(crate) fn len(&self) -> u64
        ensures { result ≡ length self.now.present.reading }
    {
        self.bytes.len() as u64
    }

    // Says that all that is shown is bytes.
    pub(crate) fn shows_bytes(&self)
        ensures { IsBytes self.now.present.reading }
    {
        are_bytes(&self.bytes);
    }

    // Reads the bytes from place `at` on, as many as `out` holds.
    pub(crate) fn read(&self, at: u64, out: &mut [u8])
        requires { at + length out.old ≤ length self.now.present.reading }
        ensures { Reads {T = Unit {0}} (state_of self.now) (state_of self.now) at out.new (Ok tt) }
    {
        let at = at as usize;
        let bytes = self.bytes.as_slice();
        out.copy_from_slice(&bytes[at..at + out.len()]);
    }

    // Writes the bytes from place `at` on.
    pub(crate) fn write(&mut self, at: u64, bytes: &[u8])
        requires { at + length bytes.now ≤ length self.old.present.reading }
        ensures memory { self.new ≡ written at bytes.now self.old }
        ensures writes { Writes {T = Unit {0}} (state_of self.old) (state_of self.new) at bytes.now (Ok tt) }
    {
        self.known = self.known.written(&at, bytes);
        let at = at as usize;
        self.bytes[at..at + bytes.len()].copy_from_slice(bytes);
    }

    // Reads a range of the disk below again, and shows what the read left in it. It returns what the read answered.
    pub(crate) fn reread<D: Disk>(
        &mut self,
        below: &mut D,
        at: u64,
        len: usize,
    ) -> Result<(), DiskFault>
        requires below { at + len ≤ D.size below.old }
        requires memory { at + len ≤ length self.old.present.reading }
        ensures size { D.size below.new ≡ D.size below.old }
        ensures honest { D.honest below.old ↔ D.honest below.new }
        ensures rereads { Rereads D.Disk below.old below.new at len self.old self.new result }
        ensures spoils { Spoils (state_of self.old) (state_of self.new) at len }
    {
        let from = at as usize;
        let answer = below.read(at, &mut self.bytes[from..from + len]);
        self.known = self.known.written(&at, &self.bytes[from..from + len]);
        answer
    }

    // Makes what was written settled.
    pub(crate) fn sync(&mut self)
        ensures memory { self.new ≡ synced self.old }
        ensures syncs { Syncs {T = Unit {0}} (state_of self.old) (state_of self.new) (Ok tt) }
    {
        self.known = self.known.synced();
    }
}
