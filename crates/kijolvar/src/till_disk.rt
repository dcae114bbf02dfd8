//! The disk of a till, and whether its changes are in its host's file.
ghost use Rattle.std.specs.Prelude.{◌≡◌, IfOk, None, Some, option_map};
ghost use Rattle.pos_disk.specs.Memory.{fresh};
ghost use Rattle.kijolvar.specs.Errands.{IsOldest, IsSync, IsWrite, no_work};
ghost use Rattle.kijolvar.specs.TillDisks.{AddsIfHosted, DoesIfHosted, IsInStep, errands_of, hosted, settlement_with};

use crate::errands::{Errand, Errands};
use pos_disk::{Disk, DiskFault, MemDisk, Relay};
use std::alloc::{AllocError, Global};
use std::marker::Model;

/// The disk of a till: one in memory. If a host keeps it in a file, each write and each sync is also an errand of the
/// host. Once the errands are done, the file equals the disk. Until then a crash leaves of it only what one of the disk
/// may have left.
///
/// A call whose errand is lost returns a fault, and so does each later write and sync.
#[derive(Drop)]
pub struct TillDisk {
    memory: MemDisk,
    errands: Option<Errands>,
}

impl Model for TillDisk {
    ghost use Rattle.kijolvar.specs.TillDisks.{HostedDisk, IsInStep, hosted};

    ghost Value = { HostedDisk };

    ghost view = { λ d. hosted d.memory d.errands };

    ghost invariant = { λ d. IsInStep (hosted d.memory d.errands) };
}

impl TillDisk {
    /// Returns a disk in memory alone.
    pub fn in_memory(memory: MemDisk) -> TillDisk
        ensures { result ≡ hosted memory None }
    {
        TillDisk {
            memory,
            errands: None,
        }
    }

    /// Returns the disk of a host's file, which has these bytes. No errand is left.
    ///
    /// # Errors
    ///
    /// [`AllocError`] if memory ran out.
    pub fn in_file(alloc: Global, bytes: &[u8]) -> Result<TillDisk, AllocError>
        ensures { IfOk result (λ disk. disk ≡ hosted (fresh bytes.now) (Some (no_work bytes.now))) }
    {
        Ok(TillDisk {
            memory: MemDisk::new(alloc, bytes.to_vec(alloc)?)?,
            errands: Some(Errands::new(alloc, bytes)),
        })
    }

    /// States what is true of every disk of a till: once the errands are done in the host's file, it equals the disk,
    /// unless an errand was lost.
    pub fn is_in_step(&self)
        ensures { IsInStep self.now }
    {
        let _memory = &self.memory;
    }

    /// Returns whether its changes are in its host's file, given whether the host said that an errand failed.
    pub fn settlement(&self, has_failed: bool) -> Settlement
        ensures { result ≡ settlement_with self.now.work has_failed }
    {
        match &self.errands {
            None => Settlement::InMemory,
            Some(errands) if errands.is_lost() || has_failed => Settlement::Failed,
            Some(errands) => match errands.oldest() {
                Some(_) => Settlement::Owed,
                None => Settlement::Settled,
            },
        }
    }

    /// Returns the oldest errand of its host, or `None` if there is none.
    pub fn oldest(&self) -> Option<&Errand>
        ensures { IsOldest (errands_of self.now.work) (option_map (λ errand. errand.now) result) }
    {
        match &self.errands {
            Some(errands) => errands.oldest(),
            None => None,
        }
    }
}

// Adds an errand that writes bytes at a place, if there is a host.
fn add_write(errands: &mut Option<Errands>, at: u64, bytes: &[u8]) -> Result<(), DiskFault>
    ensures { AddsIfHosted (IsWrite at bytes.now) errands.old errands.new result }
{
    match errands {
        Some(errands) => errands.add_write(at, bytes),
        None => Ok(()),
    }
}

// Adds an errand that makes what was written stay, if there is a host.
fn add_sync(errands: &mut Option<Errands>) -> Result<(), DiskFault>
    ensures { AddsIfHosted IsSync errands.old errands.new result }
{
    match errands {
        Some(errands) => errands.add_sync(),
        None => Ok(()),
    }
}

// Removes the oldest errand, if there is a host that has one, and returns it.
fn next_of(errands: &mut Option<Errands>) -> Option<Errand>
    ensures { DoesIfHosted errands.old errands.new result }
{
    match errands {
        Some(errands) => errands.next(),
        None => None,
    }
}

impl Disk for TillDisk {
    ghost use Rattle.std.specs.Prelude.{length, ⊤};
    ghost use Rattle.std.proofs.Common.{refl};
    ghost use Rattle.kijolvar.specs.TillDisks.{HostedReads, HostedSyncs, HostedWrites, fixed_of};
    ghost use Rattle.kijolvar.specs.TillDisks.{counts_hosted, hosted_state, only_hosted};

    ghost size = { λ disk. length disk.memory.present.reading };

    ghost fixed = { λ disk. fixed_of disk };

    ghost honest = { λ _. ⊤ };

    ghost state = { λ disk. hosted_state disk };

    ghost own_read = { HostedReads };

    ghost own_write = { HostedWrites };

    ghost own_sync = { HostedSyncs };

    ghost whole = { λ disk _. refl };

    ghost counts_now = { λ disk t bytes _. counts_hosted disk t bytes };

    ghost only_now = { λ disk bytes _. only_hosted disk bytes };

    fn len(&self) -> u64 {
        self.memory.len()
    }

    fn reads_bytes(&self) {
        self.memory.reads_bytes();
    }

    fn read(&mut self, at: u64, out: &mut [u8]) -> Result<(), DiskFault> {
        self.memory.read(at, out)
    }

    fn write(&mut self, at: u64, bytes: &[u8]) -> Result<(), DiskFault> {
        let answer = add_write(&mut self.errands, at, bytes);
        let _ = self.memory.write(at, bytes);
        answer
    }

    fn sync(&mut self) -> Result<(), DiskFault> {
        add_sync(&mut self.errands)?;
        self.memory.sync()
    }
}

impl Relay for TillDisk {
    ghost use Rattle.kijolvar.specs.TillDisks.{HostDoes};

    type Errand = Errand;

    ghost takes = { HostDoes };

    fn next(&mut self) -> Option<Errand> {
        next_of(&mut self.errands)
    }
}

/// Whether what a till's lines wrote to its disk is where it must stay.
#[derive(Clone, Copy, PartialEq, Eq)]
pub enum Settlement {
    /// The disk is in memory alone, and nothing must stay.
    InMemory,
    /// All of it is in the host's file.
    Settled,
    /// The host has errands left.
    Owed,
    /// An errand failed or was lost, so it can't be put into the file any more.
    Failed,
}
