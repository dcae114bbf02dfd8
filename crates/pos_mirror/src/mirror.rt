//! A disk in memory over another disk, which needn't be honest.
ghost use Rattle.std.specs.Prelude.{◌≡◌, ◌↔◌, List, ℕ, length, min, take};
ghost use Rattle.pos_disk.specs.State.{MayLeave};
ghost use Rattle.pos_disk.specs.Fuse.{counted};
ghost use Rattle.pos_mirror.specs.Mirror.{FollowsSince, IsMirror, mirror_state};
ghost use Rattle.pos_mirror.specs.Calls.{Calls, Opens, disk_of};

use crate::shown::Shown;
use pos_disk::{Disk, DiskFault};
use std::alloc::Global;
use std::marker::Model;
use thiserror::Error;

/// A disk in memory over another disk, which needn't be honest.
///
/// It makes each write and each sync on the disk below before it answers, and answers a read from memory. A write or a
/// sync succeeds only if the one below did. After a write that failed it reads the range again, so memory shows what
/// the disk below has.
///
/// The mirror is lost for good if that read fails. It is lost if a sync fails, too: the system may count as settled
/// what the device never had. A lost mirror answers each call with a fault and asks nothing of the disk below.
///
/// It takes one byte of memory for each byte of the disk, when it is made. No call takes memory, and each except a sync
/// takes as long as its range is.
#[derive(Drop)]
pub struct MirrorDisk<D: Disk> {
    memory: Shown,
    below: D,
    failures: u64,
    lost: bool,
}

impl<D: Disk> Model for MirrorDisk<D> {
    ghost use Rattle.pos_mirror.specs.Mirror.{Mirror, IsMirror, mirror_of};

    ghost Value = { Mirror D };

    ghost view = { λ m. mirror_of m.memory m.below m.failures m.lost };

    ghost invariant = { λ m. IsMirror D.Disk (mirror_of m.memory m.below m.failures m.lost) };
}

impl<D: Disk> MirrorDisk<D> {
    /// Returns a mirror of the first bytes of a disk, at most `most` of them. It syncs the disk and then reads it, so
    /// the mirror is at rest.
    ///
    /// # Errors
    ///
    /// - `NoMemory` if memory ran out. The disk was asked nothing then.
    /// - `Sync` if the sync failed.
    /// - `Read` if the read failed.
    ///
    /// A refusal returns the disk.
    pub fn over(mut below: D, alloc: Global, most: u64) -> Result<MirrorDisk<D>, (MirrorFault, D)>
        ensures opens { Opens D.Disk below (min (D.size below) most) result }
        ensures size { D.size (disk_of result) ≡ D.size below }
        ensures honest { D.honest below ↔ D.honest (disk_of result) }
    {
        let size = below.len().min(most) as usize;
        let Ok(mut bytes) = vec![in alloc; 0; size] else {
            return Err((MirrorFault::NoMemory, below));
        };
        if below.sync().is_err() {
            return Err((MirrorFault::Sync, below));
        }
        if below.read(0, &mut bytes).is_err() {
            return Err((MirrorFault::Read, below));
        }
        Ok(MirrorDisk {
            memory: Shown::new(bytes),
            below,
            failures: 0,
            lost: false,
        })
    }

    /// Returns the bytes that the mirror shows.
    pub fn bytes(&self) -> &[u8]
        ensures { result.now ≡ self.now.memory.present.reading }
    {
        self.memory.bytes()
    }

    /// Returns whether the mirror is lost.
    pub fn is_lost(&self) -> bool
        ensures { result ≡ self.now.lost }
    {
        self.lost
    }

    /// Returns the disk below, to be looked at.
    pub fn below(&self) -> &D
        ensures { result.now ≡ self.now.below }
    {
        &self.below
    }

    /// Ends the mirror and returns the disk below.
    pub fn into_below(self) -> D
        ensures { result ≡ self.below }
    {
        self.below
    }

    /// Says what is true of every mirror: the calls of the disk below make what memory shows.
    ///
    /// Over an honest disk, a crash leaves of that disk only what it may leave of the mirror: now (`crash`), and at any
    /// moment since the mirror was made (`History`).
    pub fn is_mirror(&self)
        ensures mirror { IsMirror D.Disk self.now }
        ensures crash { (bytes : List ℕ) → D.honest self.now.below → MayLeave (D.state self.now.below) bytes
            → MayLeave (mirror_state self.now) (take (length self.now.memory.present.reading) bytes) }
    {
        let _memory = &self.memory;
    }

    /// Says what is true of any calls of a mirror over an honest disk. Whatever a crash since then has left of the disk
    /// below, it may have left of the mirror.
    pub fn is_followed(&self, earlier: &MirrorDisk<D>)
        ensures { Calls D.Disk earlier.now self.now → D.honest earlier.now.below
            → FollowsSince D.Disk earlier.now self.now }
    {
        let _memory = &earlier.memory;
    }
}

// Adds one. The last value stays.
fn count(failures: &mut u64)
    ensures { failures.new ≡ counted failures.old }
{
    *failures = failures.saturating_add(1);
}

impl<D: Disk> Disk for MirrorDisk<D> {
    ghost use Rattle.std.specs.Prelude.{None, ⊤};
    ghost use Rattle.std.proofs.Common.{refl};
    ghost use Rattle.pos_mirror.specs.Mirror.{counts_mirrored, only_mirrored};
    ghost use Rattle.pos_mirror.specs.Calls.{MirrorReads, MirrorWrites, MirrorSyncs};

    ghost size = { λ m. length m.memory.present.reading };

    ghost fixed = { λ _. None };

    ghost honest = { λ _. ⊤ };

    ghost state = { λ m. mirror_state m };

    ghost own_read = { MirrorReads };

    ghost own_write = { MirrorWrites D.Disk };

    ghost own_sync = { MirrorSyncs D.Disk };

    ghost whole = { λ m _. refl };

    ghost counts_now = { λ m t bytes _. counts_mirrored m t bytes };

    ghost only_now = { λ m bytes _. only_mirrored m bytes };

    fn len(&self) -> u64 {
        self.memory.len()
    }

    fn reads_bytes(&self) {
        self.memory.shows_bytes();
    }

    fn read(&mut self, at: u64, out: &mut [u8]) -> Result<(), DiskFault> {
        if self.lost {
            count(&mut self.failures);
            return Err(DiskFault);
        }
        self.memory.read(at, out);
        Ok(())
    }

    fn write(&mut self, at: u64, bytes: &[u8]) -> Result<(), DiskFault> {
        if self.lost {
            count(&mut self.failures);
            self.memory.write(at, bytes);
            return Err(DiskFault);
        }
        if self.below.write(at, bytes).is_ok() {
            self.memory.write(at, bytes);
            return Ok(());
        }
        count(&mut self.failures);
        let again = self.memory.reread(&mut self.below, at, bytes.len());
        self.lost = again.is_err();
        Err(DiskFault)
    }

    fn sync(&mut self) -> Result<(), DiskFault> {
        if self.lost {
            count(&mut self.failures);
            return Err(DiskFault);
        }
        if self.below.sync().is_err() {
            count(&mut self.failures);
            self.lost = true;
            return Err(DiskFault);
        }
        self.memory.sync();
        Ok(())
    }
}

/// Why a disk can't be mirrored.
#[derive(Clone, Copy, Debug, PartialEq, Eq, Error)]
pub enum MirrorFault {
    /// Memory for the bytes of the disk ran out.
    #[error("there was no memory")]
    NoMemory,
    /// A sync of the disk failed.
    #[error("the disk can't be synced")]
    Sync,
    /// A read of the disk failed.
    #[error("the disk can't be read")]
    Read,
}
