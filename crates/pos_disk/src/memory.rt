//! A disk in memory.
ghost use Rattle.std.specs.Prelude.{◌≡◌, ◌≤◌, ◌<◌, ◌+◌, ◌==◌, ℕ, List, length, get_or, replicate, IfOk, None, Ok, ⊤};
ghost use Rattle.std.specs.List.{list_any};
ghost use Rattle.std.proofs.Common.{refl};
ghost use Rattle.pos_disk.specs.State.{IsBytes, splice};
ghost use Rattle.pos_disk.specs.Stamps.{IsSaved};

use crate::past::Past;
use crate::{Disk, DiskFault};
use std::alloc::{AllocError, Global};
use std::marker::Model;

/// A disk in memory, which is honest and never fails.
///
/// It takes memory only when it is made: five bytes for each place, beside the bytes that it is given. A read or a
/// write takes as long as its range is. A sync takes the same time on any disk, but after each 4,294,967,294 of them it
/// clears the stamps of all places.
#[derive(Drop)]
pub struct MemDisk {
    alloc: Global,
    bytes: Vec<u8>,
    // What was in each loose place at the last sync.
    saved: Vec<u8>,
    // The places that have the present stamp are loose.
    stamps: Vec<u32>,
    stamp: u32,
    past: Past,
}

impl Model for MemDisk {
    ghost use Rattle.pos_disk.specs.Memory.{Memory};
    ghost use Rattle.pos_disk.specs.Stamps.{memory_of, IsKept};

    ghost Value = { Memory };

    ghost view = { λ d. memory_of d.bytes.items d.saved.items d.stamps.items d.stamp d.past.moments };

    ghost invariant = { λ d. IsKept d.bytes.items d.saved.items d.stamps.items d.stamp };
}

impl MemDisk {
    ghost use Rattle.pos_disk.specs.State.{MayLeave};
    ghost use Rattle.pos_disk.specs.Memory.{fresh, filled, state_of};

    /// Returns a disk with these bytes, at rest.
    ///
    /// # Errors
    ///
    /// [`AllocError`] if memory ran out.
    pub fn new(alloc: Global, bytes: Vec<u8>) -> Result<MemDisk, AllocError>
        ensures { IfOk result (λ disk. disk ≡ fresh bytes.items) }
    {
        let saved = bytes.to_vec(alloc)?;
        let stamps = vec![in alloc; 0; bytes.len()]?;
        Ok(MemDisk {
            alloc,
            bytes,
            saved,
            stamps,
            stamp: 1,
            past: Past::new(),
        })
    }

    /// Returns the disk that a crash at this moment leaves, at rest. Each loose place has what `fill` says, and each
    /// other one what a read gives. docs/proofs/crashes.md, "What a crash leaves".
    ///
    /// # Errors
    ///
    /// [`AllocError`] if memory ran out.
    pub fn crash(&self, fill: Fill) -> Result<MemDisk, AllocError>
        ensures filled { IfOk result (λ disk. disk ≡ fresh (filled fill self.now)) }
        ensures allowed { IfOk result (λ disk. MayLeave (state_of self.now) disk.present.reading) }
    {
        let mut bytes = match fill {
            Fill::Old => self.saved.to_vec(self.alloc)?,
            Fill::New => self.bytes.to_vec(self.alloc)?,
            Fill::Byte(byte) => vec![in self.alloc; byte; self.bytes.len()]?,
        };
        save(
            &mut bytes,
            &self.bytes,
            &self.stamps,
            self.stamp,
            0,
            self.bytes.len(),
        );
        MemDisk::new(self.alloc, bytes)
    }
}

// Saves the byte of each of `len` places that isn't loose yet: all of them at once if none is loose.
fn save(saved: &mut Vec<u8>, bytes: &[u8], stamps: &[u32], stamp: u32, at: usize, len: usize)
    requires saved { at + len ≤ length saved.old.items }
    requires bytes { at + len ≤ length bytes.now }
    requires stamps { at + len ≤ length stamps.now }
    ensures { IsSaved stamps.now stamp bytes.now at len saved.old.items saved.new.items }
{
    if is_any_loose(&stamps[at..at + len], stamp) {
        save_each(saved, bytes, stamps, stamp, at, len);
    } else {
        overwrite(saved, at, &bytes[at..at + len]);
    }
}

// Returns whether one of these stamps is the present one. It goes through all of them, and so compares several at a
// time.
fn is_any_loose(stamps: &[u32], stamp: u32) -> bool
    ensures { result ≡ list_any (λ s. s == stamp) stamps.now }
{
    let mut found = false;
    for one in stamps {
        found |= *one == stamp;
    }
    found
}

// Saves the byte of each of `len` places that isn't loose yet, one after another.
fn save_each(saved: &mut Vec<u8>, bytes: &[u8], stamps: &[u32], stamp: u32, at: usize, len: usize)
    requires saved { at + len ≤ length saved.old.items }
    requires bytes { at + len ≤ length bytes.now }
    requires stamps { at + len ≤ length stamps.now }
    ensures { IsSaved stamps.now stamp bytes.now at len saved.old.items saved.new.items }
{
    for place in at..at + len {
        if stamps[place] != stamp {
            saved[place] = bytes[place];
        }
    }
}

// Puts bytes over those from a place on.
fn overwrite(bytes: &mut Vec<u8>, at: usize, new: &[u8])
    requires { at + length new.now ≤ length bytes.old.items }
    ensures { bytes.new.items ≡ splice bytes.old.items at new.now }
{
    bytes[at..at + new.len()].copy_from_slice(new);
}

// Stamps each of `len` places.
fn mark(stamps: &mut Vec<u32>, at: usize, len: usize, stamp: u32)
    requires { at + len ≤ length stamps.old.items }
    ensures { stamps.new.items ≡ splice stamps.old.items at (replicate len stamp) }
{
    stamps[at..at + len].fill(stamp);
}

// Returns a stamp that no place has. After the last one all places are cleared.
fn next_stamp(stamps: &mut Vec<u32>, stamp: u32) -> u32
    requires { (i : ℕ) → get_or stamps.old.items i 0 ≤ stamp }
    ensures length { length stamps.new.items ≡ length stamps.old.items }
    ensures later { (i : ℕ) → get_or stamps.new.items i 0 < result }
{
    if let Some(next) = stamp.checked_add(1) {
        return next;
    }
    stamps.fill(0);
    1
}

// What the type of a slice says of its items.
fn are_bytes(bytes: &[u8])
    ensures { IsBytes bytes.now }
{
    let _count = bytes.len();
}

impl Disk for MemDisk {
    ghost use Rattle.pos_disk.specs.State.{Reads, Writes, Syncs};
    ghost use Rattle.pos_disk.specs.Memory.{state_of, written, synced, MemoryReads, MemoryWrites, MemorySyncs};
    ghost use Rattle.pos_disk.specs.Kept.{counts, only};

    ghost size = { λ m. length m.present.reading };

    ghost fixed = { λ _. None };

    ghost honest = { λ _. ⊤ };

    ghost state = { state_of };

    ghost own_read = { MemoryReads };

    ghost own_write = { MemoryWrites };

    ghost own_sync = { MemorySyncs };

    ghost whole = { λ m _. refl };

    ghost counts_now = { λ m t bytes _. counts m t bytes };

    ghost only_now = { λ m bytes _. only m bytes };

    fn len(&self) -> u64 {
        self.bytes.len() as u64
    }

    fn reads_bytes(&self)
        ensures { IsBytes self.now.present.reading }
    {
        are_bytes(&self.bytes);
    }

    fn read(&mut self, at: u64, out: &mut [u8]) -> Result<(), DiskFault>
        requires { at + length out.old ≤ length self.old.present.reading }
        ensures done { result ≡ Ok tt }
        ensures memory { self.new ≡ self.old }
        ensures reads { Reads (state_of self.old) (state_of self.new) at out.new result }
    {
        let at = at as usize;
        let bytes = self.bytes.as_slice();
        out.copy_from_slice(&bytes[at..at + out.len()]);
        Ok(())
    }

    fn write(&mut self, at: u64, bytes: &[u8]) -> Result<(), DiskFault>
        requires { at + length bytes.now ≤ length self.old.present.reading }
        ensures done { result ≡ Ok tt }
        ensures memory { self.new ≡ written at bytes.now self.old }
        ensures writes { Writes (state_of self.old) (state_of self.new) at bytes.now result }
    {
        let at = at as usize;
        self.past = self.past.and(&self.bytes, &self.stamps, &self.stamp);
        save(
            &mut self.saved,
            &self.bytes,
            &self.stamps,
            self.stamp,
            at,
            bytes.len(),
        );
        mark(&mut self.stamps, at, bytes.len(), self.stamp);
        overwrite(&mut self.bytes, at, bytes);
        Ok(())
    }

    fn sync(&mut self) -> Result<(), DiskFault>
        ensures done { result ≡ Ok tt }
        ensures memory { self.new ≡ synced self.old }
        ensures syncs { Syncs (state_of self.old) (state_of self.new) result }
    {
        self.past = self.past.and(&self.bytes, &self.stamps, &self.stamp);
        self.stamp = next_stamp(&mut self.stamps, self.stamp);
        Ok(())
    }
}

/// What a crash puts into the loose places: the byte of the last sync, what a read gives, or one byte.
#[derive(Clone, Copy, PartialEq, Eq)]
pub enum Fill {
    /// The byte that was there at the last sync.
    Old,
    /// The byte that a read gives.
    New,
    /// This byte.
    Byte(u8),
}
