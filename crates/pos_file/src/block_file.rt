//! A file as a disk needs it.
ghost use Rattle.std.specs.Prelude.{◌≡◌, ◌++◌, ◌∷◌, [], List, ⊤};
ghost use Rattle.std.specs.Io.{ReadsAtMost, WritesAtMost};
ghost use Rattle.pos_file.specs.Calls.{Call, done_of, lock_call, locks_of, measure_call, number_of, read_call};
ghost use Rattle.pos_file.specs.Calls.{share_call, sync_call, write_call};

use std::fs::TryLockError;
use std::io;

/// A file that is read and written by places, numbered from 0.
///
/// It keeps a list of its calls: each adds itself, with its answer, after those before. No contract can say what a file
/// keeps, but the list says exactly what it was asked.
///
/// A function that closes a file says so by `closed`, of the file as it was then. Code over any file has that only from
/// [`BlockFile::close`], which takes the file, so the list is the whole of what the file was asked.
pub trait BlockFile {
    /// What it was asked so far, the first call first.
    ghost calls: { Self → List Call };

    /// What is known of a file that was closed as it is: nothing, where a type doesn't say more.
    ghost closed: { Self → Type 0 } = { λ _. ⊤ };

    /// Locks it for this program alone, without waiting. It stays locked until it is closed.
    ///
    /// # Errors
    ///
    /// - `WouldBlock` if another program has locked it.
    /// - `Error` with the system's cause if the call failed.
    fn try_lock(&mut self) -> Result<(), TryLockError>
        ensures { calls self.new ≡ calls self.old ++ lock_call (locks_of result) ∷ [] };

    /// Locks it for reading, without waiting. Other programs may lock it for reading too.
    ///
    /// # Errors
    ///
    /// - `WouldBlock` if another program has locked it for itself.
    /// - `Error` with the system's cause if the call failed.
    fn try_lock_shared(&mut self) -> Result<(), TryLockError>
        ensures { calls self.new ≡ calls self.old ++ share_call (locks_of result) ∷ [] };

    /// Returns how many bytes it has.
    ///
    /// # Errors
    ///
    /// The system's cause if the call failed.
    fn measure(&mut self) -> io::Result<u64>
        ensures { calls self.new ≡ calls self.old ++ measure_call (number_of result) ∷ [] };

    /// Reads bytes from place `at` on, at most as many as `out` holds, and returns how many it read.
    ///
    /// # Errors
    ///
    /// The system's cause if the call failed.
    fn read_at(&mut self, at: u64, out: &mut [u8]) -> io::Result<usize>
        ensures bound { ReadsAtMost result out.new }
        ensures asked { calls self.new ≡ calls self.old ++ read_call at out.new (number_of result) ∷ [] };

    /// Writes bytes from place `at` on, and returns how many of them it wrote.
    ///
    /// # Errors
    ///
    /// The system's cause if the call failed.
    fn write_at(&mut self, at: u64, bytes: &[u8]) -> io::Result<usize>
        ensures bound { WritesAtMost result bytes.now }
        ensures asked { calls self.new ≡ calls self.old ++ write_call at bytes.now (number_of result) ∷ [] };

    /// Makes what was written stay.
    ///
    /// # Errors
    ///
    /// The system's cause if the call failed.
    fn sync(&mut self) -> io::Result<()>
        ensures { calls self.new ≡ calls self.old ++ sync_call (done_of result) ∷ [] };

    /// Closes it. It is asked nothing more.
    fn close(self)
        ensures { closed self };
}
