//! What a till's host must do to its file.
ghost use Rattle.std.specs.Prelude.{◌≡◌, IfOk, Some, option_map};
ghost use Rattle.kijolvar.specs.Errands.{Adds, Does, IsOldest, IsSync, IsWrite, WritesErrand, no_work};

use crate::codes::{SHORT, SYNC, WRITE};
use crate::host_file::HostFile;
use pos_disk::DiskFault;
use std::alloc::{AllocError, Global};
use std::collections::VecDeque;
use std::marker::Model;

/// One thing that the host must do to its file.
#[derive(Drop)]
pub enum Errand {
    /// Writes bytes at a place.
    Write { at: u64, bytes: Vec<u8> },
    /// Makes what was written stay.
    Sync,
}

/// Returns the errand that writes bytes at a place.
///
/// # Errors
///
/// [`AllocError`] if memory ran out.
pub(crate) fn write_errand(alloc: Global, at: u64, bytes: &[u8]) -> Result<Errand, AllocError>
    ensures { IfOk result (λ errand. IsWrite at bytes.now errand) }
{
    Ok(Errand::Write {
        at,
        bytes: bytes.to_vec(alloc)?,
    })
}

/// Writes to `at`, `bytes` and `needed` what an errand must do, and returns its kind: WRITE or SYNC.
///
/// # Errors
///
/// SHORT if `bytes` has less room than the errand has bytes. Then `needed` says how many it has, and nothing else is
/// written.
pub(crate) fn write_one_errand(
    errand: &Errand,
    at: &mut u64,
    bytes: &mut [u8],
    needed: &mut usize,
) -> u32
    ensures { WritesErrand errand.now at.old at.new bytes.old bytes.new needed.old needed.new result }
{
    match errand {
        Errand::Sync => SYNC,
        Errand::Write {
            at: place,
            bytes: written,
        } => {
            *needed = written.len();
            if written.len() > bytes.len() {
                return SHORT;
            }
            *at = *place;
            bytes[..written.len()].copy_from_slice(written);
            WRITE
        }
    }
}

/// What a till's host must do to its file, oldest errand first. If memory runs out for an errand, it is lost, and so is
/// each later one.
#[derive(Drop)]
pub struct Errands {
    alloc: Global,
    errands: VecDeque<Errand>,
    is_lost: bool,
    file: HostFile,
}

impl Model for Errands {
    ghost use Rattle.kijolvar.specs.Errands.{HostWork};

    ghost Value = { HostWork };

    ghost view = { λ e. record { errands = e.errands.items; lost = e.is_lost; file = e.file.disk } };

    ghost invariant = { λ _. Unit {0} };
}

impl Errands {
    /// Returns no errands, of a host whose file has these bytes.
    pub fn new(alloc: Global, bytes: &[u8]) -> Errands
        ensures { result ≡ no_work bytes.now }
    {
        Errands {
            alloc,
            errands: VecDeque::new(alloc),
            is_lost: false,
            file: HostFile::of(bytes),
        }
    }

    /// Adds an errand that writes bytes at a place.
    ///
    /// # Errors
    ///
    /// [`DiskFault`] if memory ran out for the errand, or did for an earlier one. Then it is lost.
    pub fn add_write(&mut self, at: u64, bytes: &[u8]) -> Result<(), DiskFault>
        ensures { Adds (IsWrite at bytes.now) self.old self.new result }
    {
        let errand = write_errand(self.alloc, at, bytes);
        self.add(errand)
    }

    /// Adds an errand that makes what was written stay.
    ///
    /// # Errors
    ///
    /// [`DiskFault`] if memory ran out for the errand, or did for an earlier one. Then it is lost.
    pub fn add_sync(&mut self) -> Result<(), DiskFault>
        ensures { Adds IsSync self.old self.new result }
    {
        self.add(Ok(Errand::Sync))
    }

    // Adds an errand, or loses it.
    fn add(&mut self, errand: Result<Errand, AllocError>) -> Result<(), DiskFault>
        ensures { Adds (λ one. errand ≡ Ok one) self.old self.new result }
    {
        if !self.is_lost {
            if let Ok(errand) = errand {
                if self.errands.push_back(errand).is_ok() {
                    return Ok(());
                }
            }
        }
        self.is_lost = true;
        Err(DiskFault)
    }

    /// Returns the oldest errand, or `None` if there is none.
    pub fn oldest(&self) -> Option<&Errand>
        ensures { IsOldest self.now.errands (option_map (λ errand. errand.now) result) }
    {
        self.errands.front()
    }

    /// Returns whether an errand was lost.
    pub fn is_lost(&self) -> bool
        ensures { result ≡ self.now.lost }
    {
        self.is_lost
    }

    /// Removes the oldest errand, which the host has done, and returns it; `None` if there is none.
    pub fn next(&mut self) -> Option<Errand>
        ensures { Does self.old self.new result }
    {
        let oldest = self.errands.pop_front();
        if let Some(errand) = &oldest {
            self.file = self.file.after(errand);
        }
        oldest
    }
}
