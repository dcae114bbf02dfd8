//! A disk in a file.
ghost use Rattle.std.specs.Prelude.{◌≡◌, ◌+◌, ◌<◌, None, false, length};
ghost use Rattle.pos_disk.specs.Unkept.{is_fault, unknown_state};
ghost use Rattle.pos_file.specs.Answers.{answer_of};
ghost use Rattle.pos_file.specs.Calls.{number_of};

use crate::block_file::BlockFile;
use crate::fault::DiskFileFault;
use pos_disk::{Disk, DiskFault};
use std::fs::TryLockError;
use std::io;
use std::io::ErrorKind;

/// A disk in a file, as long as the file was when it was opened.
///
/// The file is locked from before it is measured until it is closed: for this program alone, or for reading by
/// [`FileDisk::over_shared`]. A read or a write is one call of the file. If that fails, or moves fewer bytes than were
/// asked for, the answer is a fault.
///
/// After a sync that failed each call is a fault and asks nothing of the file, until the file is opened again. The
/// system may count as settled what the device never had.
///
/// No contract can say what a file keeps, so the disk is never honest. Its own relations say what it asks of the file.
/// docs/guide/power-cuts.md, "Premises on a real disk".
#[derive(Drop)]
pub struct FileDisk<F: BlockFile + Drop> {
    file: F,
    size: u64,
    // Whether a sync has failed.
    has_failed: bool,
}

// Returns a fault unless a call of the file moved all the bytes that it was asked for.
fn whole(moved: io::Result<usize>, asked: usize) -> Result<(), DiskFault>
    ensures { result ≡ answer_of asked (number_of moved) }
{
    match moved {
        Ok(count) if count == asked => Ok(()),
        _ => Err(DiskFault),
    }
}

impl<F: BlockFile + Drop> FileDisk<F> {
    ghost use Rattle.pos_file.specs.Disks.{FollowsLock, Lengthens, Opens, OpensShared};

    /// Returns the file, to be looked at.
    pub fn file(&self) -> &F
        ensures { result.now ≡ self.now.file }
    {
        &self.file
    }

    /// Closes the file.
    pub fn close(self)
        ensures { F.closed self.file }
    {
        self.file.close();
    }

    // Returns a fault after a sync that failed.
    fn check(&self) -> Result<(), DiskFault>
        ensures { is_fault result ≡ self.now.has_failed }
    {
        if self.has_failed {
            return Err(DiskFault);
        }
        Ok(())
    }

    /// Locks an open file for this program alone, and returns the disk in it, as long as the file is now.
    ///
    /// # Errors
    ///
    /// - `InUse` if another program has locked it. Nothing else was asked of it then.
    /// - `Lock` if the system gives no lock.
    /// - `Measure` if the system doesn't report its length.
    ///
    /// A refusal returns the file.
    pub fn over(mut file: F) -> Result<FileDisk<F>, (DiskFileFault, F)>
        ensures { Opens F.calls file result }
    {
        let lock = file.try_lock();
        FileDisk::locked(file, lock)
    }

    /// Locks an open file for reading, and returns the disk in it, as long as the file is now. Other programs may read
    /// it too. Use it for a disk that is only read.
    ///
    /// # Errors
    ///
    /// - `InUse` if another program has locked it for itself. Nothing else was asked of it then.
    /// - `Lock` if the system gives no lock.
    /// - `Measure` if the system doesn't report its length.
    ///
    /// A refusal returns the file.
    pub fn over_shared(mut file: F) -> Result<FileDisk<F>, (DiskFileFault, F)>
        ensures { OpensShared F.calls file result }
    {
        let lock = file.try_lock_shared();
        FileDisk::locked(file, lock)
    }

    // Returns the disk in a file that answered this to a call for a lock.
    fn locked(
        mut file: F,
        lock: Result<(), TryLockError>,
    ) -> Result<FileDisk<F>, (DiskFileFault, F)>
        ensures { FollowsLock F.calls file lock result }
    {
        if let Err(cause) = lock {
            return Err((DiskFileFault::of_lock(cause), file));
        }
        match file.measure() {
            Ok(size) => Ok(FileDisk {
                file,
                size,
                has_failed: false,
            }),
            Err(cause) => Err((DiskFileFault::Measure(cause), file)),
        }
    }

    /// Lengthens the file by these bytes behind its end, syncs it, and returns the disk. They are written, so that a
    /// device that is full later has room for them.
    ///
    /// # Errors
    ///
    /// - `Lengthen` if they can't be written whole.
    /// - `Sync` if the sync failed. The device may not have them then.
    ///
    /// A refusal returns the file.
    pub fn lengthen(self, bytes: &[u8]) -> Result<FileDisk<F>, (DiskFileFault, F)>
        requires sound { self.has_failed ≡ false }
        requires fits { self.size + length bytes.now < 18446744073709551616 }
        ensures { Lengthens F.calls self bytes.now result }
    {
        let (mut file, size) = (self.file, self.size);
        match file.write_at(size, bytes) {
            Ok(count) if count == bytes.len() => {}
            Ok(_) => {
                let cause = io::Error::from(ErrorKind::StorageFull);
                return Err((DiskFileFault::Lengthen(cause), file));
            }
            Err(cause) => return Err((DiskFileFault::Lengthen(cause), file)),
        }
        match file.sync() {
            Ok(()) => Ok(FileDisk {
                file,
                size: size + bytes.len() as u64,
                has_failed: false,
            }),
            Err(cause) => Err((DiskFileFault::Sync(cause), file)),
        }
    }
}

impl<F: BlockFile + Drop> Disk for FileDisk<F> {
    ghost use Rattle.pos_file.specs.Disks.{FileReads, FileSyncs, FileWrites};

    ghost size = { λ disk. disk.size };

    ghost fixed = { λ _. None };

    ghost honest = { λ _. ⊥ };

    ghost state = { λ _. unknown_state };

    ghost own_read = { FileReads F.calls };

    ghost own_write = { FileWrites F.calls };

    ghost own_sync = { FileSyncs F.calls };

    ghost whole = { λ disk honest. absurd honest };

    ghost counts_now = { λ disk t bytes honest le may. absurd honest };

    ghost only_now = { λ disk bytes honest left. absurd honest };

    fn len(&self) -> u64 {
        self.size
    }

    fn reads_bytes(&self) {}

    fn read(&mut self, at: u64, out: &mut [u8]) -> Result<(), DiskFault> {
        self.check()?;
        let asked = out.len();
        whole(self.file.read_at(at, out), asked)
    }

    fn write(&mut self, at: u64, bytes: &[u8]) -> Result<(), DiskFault> {
        self.check()?;
        whole(self.file.write_at(at, bytes), bytes.len())
    }

    fn sync(&mut self) -> Result<(), DiskFault> {
        self.check()?;
        match self.file.sync() {
            Ok(()) => Ok(()),
            Err(_) => {
                self.has_failed = true;
                Err(DiskFault)
            }
        }
    }
}
