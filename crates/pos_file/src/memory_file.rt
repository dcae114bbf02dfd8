//! A file in memory, for tests.
ghost use Rattle.std.specs.Prelude.{◌≡◌, []};

use crate::answers::{done, locks, number};
use crate::block_file::BlockFile;
use crate::history::{CallHistory, CallKind};
use std::fs::TryLockError;
use std::io;
use std::io::ErrorKind;

/// A file in memory that fails as a test sets it.
///
/// A read or a write moves at most `most` bytes. A lock or a sync fails if a cause is set. Its length never changes:
/// behind its end nothing is written.
#[derive(Drop)]
pub struct MemoryFile {
    bytes: Vec<u8>,
    /// The most bytes that a read or a write moves.
    pub most: usize,
    /// Why a call for a lock fails, or `None` if it succeeds. `WouldBlock` means that another program has the lock.
    pub lock_fault: Option<ErrorKind>,
    /// Why a sync fails, or `None` if it succeeds.
    pub sync_fault: Option<ErrorKind>,
    history: CallHistory,
}

// Returns what a call answers that fails with this cause, or succeeds if there is none.
fn outcome(fault: Option<ErrorKind>) -> io::Result<()> {
    match fault {
        None => Ok(()),
        Some(kind) => Err(io::Error::from(kind)),
    }
}

// Returns what a call for a lock answers that fails with this cause, or succeeds if there is none.
fn lock_outcome(fault: Option<ErrorKind>) -> Result<(), TryLockError> {
    match fault {
        None => Ok(()),
        Some(ErrorKind::WouldBlock) => Err(TryLockError::WouldBlock),
        Some(kind) => Err(TryLockError::Error(io::Error::from(kind))),
    }
}

impl MemoryFile {
    /// Returns a file with these bytes, which moves all of them and refuses no lock and no sync.
    pub fn new(bytes: Vec<u8>) -> MemoryFile
        ensures { result.history.calls ≡ [] }
    {
        MemoryFile {
            bytes,
            most: usize::MAX,
            lock_fault: None,
            sync_fault: None,
            history: CallHistory::new(),
        }
    }

    /// Returns its bytes.
    pub fn bytes(&self) -> &[u8]
        ensures { result.now ≡ self.now.bytes.items }
    {
        self.bytes.as_slice()
    }
}

impl BlockFile for MemoryFile {
    ghost calls = { λ file. file.history.calls };

    fn try_lock(&mut self) -> Result<(), TryLockError> {
        let answer = lock_outcome(self.lock_fault);
        self.history.note(CallKind::Lock, 0, &[], locks(&answer));
        answer
    }

    fn try_lock_shared(&mut self) -> Result<(), TryLockError> {
        let answer = lock_outcome(self.lock_fault);
        self.history.note(CallKind::Share, 0, &[], locks(&answer));
        answer
    }

    fn measure(&mut self) -> io::Result<u64> {
        let size = self.bytes.len() as u64;
        self.history.note(CallKind::Measure, 0, &[], Some(size));
        Ok(size)
    }

    fn read_at(&mut self, at: u64, out: &mut [u8]) -> io::Result<usize> {
        let from = (at as usize).min(self.bytes.len());
        let count = out.len().min(self.most).min(self.bytes.len() - from);
        out[..count].copy_from_slice(&self.bytes[from..from + count]);
        let answer = Ok(count);
        self.history.note(CallKind::Read, at, out, number(&answer));
        answer
    }

    fn write_at(&mut self, at: u64, bytes: &[u8]) -> io::Result<usize> {
        let from = (at as usize).min(self.bytes.len());
        let count = bytes.len().min(self.most).min(self.bytes.len() - from);
        self.bytes[from..from + count].copy_from_slice(&bytes[..count]);
        let answer = Ok(count);
        self.history
            .note(CallKind::Write, at, bytes, number(&answer));
        answer
    }

    fn sync(&mut self) -> io::Result<()> {
        let answer = outcome(self.sync_fault);
        self.history.note(CallKind::Sync, 0, &[], done(&answer));
        answer
    }

    fn close(self) {}
}
