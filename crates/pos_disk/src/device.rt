//! A disk as the layers above see it, honest or not.
ghost use Rattle.std.specs.Prelude.{◌↔◌, ◌≡◌, ◌≤◌, ◌+◌, List, Option, ℕ, length};
ghost use Rattle.pos_disk.specs.State.{DiskState, Answer, IsBytes, MayLeave, Reads, Writes, Syncs, IsSame};

use thiserror::Error;

/// A read, a write or a sync that failed.
#[derive(Clone, Copy, Debug, PartialEq, Eq, Error)]
#[error("the disk failed")]
pub struct DiskFault;

/// A disk: bytes at places numbered from 0. The caller keeps each range within the size.
///
/// The contracts on reads, writes, syncs and crashes hold for an honest disk alone. The size stays on any disk. An
/// honest disk counts its failures: the count rises if a call returns a fault, up to its last value, and only then.
/// docs/proofs/crashes.md, "The model of a disk".
pub trait Disk {
    /// How many bytes it has, whether it is honest or not.
    ghost size: { Self → ℕ };

    /// What no call of this very disk changes, whether it is honest or not: the bytes of a file that follows it later,
    /// if there is one.
    ghost fixed: { Self → Option (List ℕ) };

    /// Whether it keeps the model. A call makes no disk honest that wasn't, and none dishonest that was.
    ghost honest: { Self → Type 0 };

    /// What an honest disk is at this moment.
    ghost state: { Self → DiskState };

    /// What one read of this very disk does, honest or not: the disk before and after, the place, what `out` held
    /// before and holds after, and the result. With it a disk that passes a call on says that it made this one call.
    ghost own_read: { Self → Self → ℕ → List ℕ → List ℕ → Answer → Type 0 };

    /// What one write of this very disk does: the disk before and after, the place, the bytes and the result.
    ghost own_write: { Self → Self → ℕ → List ℕ → Answer → Type 0 };

    /// What one sync of this very disk does: the disk before and after, and the result.
    ghost own_sync: { Self → Self → Answer → Type 0 };

    /// Returns how many bytes it has.
    fn len(&self) -> u64
        ensures { result ≡ size self.now };

    /// Reads the bytes from place `at` on, as many as `out` holds.
    ///
    /// # Errors
    ///
    /// [`DiskFault`] if the read failed. Then `out` holds any bytes.
    fn read(&mut self, at: u64, out: &mut [u8]) -> Result<(), DiskFault>
        requires { at + length out.old ≤ size self.old }
        ensures size { size self.new ≡ size self.old }
        ensures fixed { fixed self.new ≡ fixed self.old }
        ensures honest { honest self.old ↔ honest self.new }
        ensures reads { honest self.old → Reads (state self.old) (state self.new) at out.new result }
        ensures own { own_read self.old self.new at out.old out.new result };

    /// Writes the bytes from place `at` on. From the beginning of a write its range is loose, whatever the result:
    /// until a sync succeeds, a crash may leave any bytes there.
    ///
    /// # Errors
    ///
    /// [`DiskFault`] if the write failed. Then any bytes are in its range.
    fn write(&mut self, at: u64, bytes: &[u8]) -> Result<(), DiskFault>
        requires { at + length bytes.now ≤ size self.old }
        ensures size { size self.new ≡ size self.old }
        ensures fixed { fixed self.new ≡ fixed self.old }
        ensures honest { honest self.old ↔ honest self.new }
        ensures writes { honest self.old → Writes (state self.old) (state self.new) at bytes.now result }
        ensures own { own_write self.old self.new at bytes.now result };

    /// Makes what was written stay: after a success a crash leaves what a read gives.
    ///
    /// # Errors
    ///
    /// [`DiskFault`] if the sync failed. Then nothing is promised to have settled.
    fn sync(&mut self) -> Result<(), DiskFault>
        ensures size { size self.new ≡ size self.old }
        ensures fixed { fixed self.new ≡ fixed self.old }
        ensures honest { honest self.old ↔ honest self.new }
        ensures syncs { honest self.old → Syncs (state self.old) (state self.new) result }
        ensures own { own_sync self.old self.new result };

    /// Says what is true of every honest disk: a read of it gives bytes. It asks nothing of the disk.
    fn reads_bytes(&self)
        ensures { honest self.now → IsBytes (state self.now).reading };

    /// An honest disk has as many bytes as its size.
    ghost whole: { (disk : Self) → honest disk → length (state disk).reading ≡ size disk };

    /// What a crash may leave now is among what a crash since an earlier moment may have left.
    ghost counts_now: { (disk : Self) (t : ℕ) (bytes : List ℕ) → honest disk → t ≤ (state disk).moment
        → MayLeave (state disk) bytes → (state disk).left_since t bytes };

    /// A crash since this very moment leaves what a crash may leave now.
    ghost only_now: { (disk : Self) (bytes : List ℕ) → honest disk → (state disk).left_since (state disk).moment bytes
        → MayLeave (state disk) bytes };
}

/// A disk that keeps errands for its owner, oldest first: for example what a host outside is still to do.
pub trait Relay: Disk {
    /// One errand.
    type Errand;

    /// What taking out the oldest errand of this very disk does: the disk before and after, and what was taken.
    ghost takes: { Self → Self → Option Self.Errand → Type 0 };

    /// Takes out the oldest errand, and returns it, or `None` if there is none. The disk is otherwise as it was.
    fn next(&mut self) -> Option<Self::Errand>
        ensures size { Self.size self.new ≡ Self.size self.old }
        ensures honest { Self.honest self.old ↔ Self.honest self.new }
        ensures same { Self.honest self.old → IsSame (Self.state self.old) (Self.state self.new) }
        ensures takes { takes self.old self.new result };
}
