//! A disk that isn't honest.
ghost use Rattle.std.specs.Prelude.{◌≡◌, length};

use pos_disk::{Disk, DiskFault, MemDisk};

/// A disk that tells the truth in its first calls, and then lies in one of four, by a number that it begins with: it
/// changes the first byte that a read gives, drops a write, or fails a sync and counts no failure.
#[derive(Drop)]
pub struct Liar {
    inner: MemDisk,
    truths: u64,
    turn: u64,
}

impl Liar {
    /// Returns a disk of these bytes that lies by this number, after so many calls.
    pub fn new(inner: MemDisk, truths: u64, seed: u64) -> Liar {
        Liar {
            inner,
            truths,
            turn: seed,
        }
    }

    // Returns whether it lies this time.
    fn lies(&mut self) -> bool
        ensures { self.new.inner ≡ self.old.inner }
    {
        if self.truths > 0 {
            self.truths -= 1;
            return false;
        }
        self.turn = self
            .turn
            .wrapping_mul(6_364_136_223_846_793_005)
            .wrapping_add(1_442_695_040_888_963_407);
        self.turn >> 62 == 0
    }
}

impl Disk for Liar {
    ghost use Rattle.std.specs.Prelude.{None, ⊤};
    ghost use Rattle.pos_disk.specs.Memory.{state_of};

    ghost size = { λ liar. length liar.inner.present.reading };

    ghost fixed = { λ _. None };

    ghost honest = { λ _. ⊥ };

    ghost state = { λ liar. state_of liar.inner };

    ghost own_read = { λ _ _ _ _ _ _. ⊤ };

    ghost own_write = { λ _ _ _ _ _. ⊤ };

    ghost own_sync = { λ _ _ _. ⊤ };

    ghost whole = { λ _ honest. absurd honest };

    ghost counts_now = { λ _ _ _ honest. absurd honest };

    ghost only_now = { λ _ _ honest. absurd honest };

    fn len(&self) -> u64 {
        self.inner.len()
    }

    fn reads_bytes(&self) {
        self.inner.reads_bytes();
    }

    fn read(&mut self, at: u64, out: &mut [u8]) -> Result<(), DiskFault> {
        let lies = self.lies();
        self.inner.read(at, out)?;
        if lies && !out.is_empty() {
            out[0] ^= 0x5A;
        }
        Ok(())
    }

    fn write(&mut self, at: u64, bytes: &[u8]) -> Result<(), DiskFault> {
        if self.lies() {
            return Ok(());
        }
        self.inner.write(at, bytes)
    }

    fn sync(&mut self) -> Result<(), DiskFault> {
        if self.lies() {
            return Err(DiskFault);
        }
        self.inner.sync()
    }
}
