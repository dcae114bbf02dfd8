//! A file of the system. No contract says what the system does: each method is one call of `File`, noted with its
//! answer.
ghost use Rattle.std.specs.Prelude.{◌≡◌, []};

use crate::answers::{done, locks, number};
use crate::block_file::BlockFile;
use crate::history::{CallHistory, CallKind};
use std::fs::{File, Metadata, TryLockError};
use std::io;
use std::os::unix::fs::{FileExt, MetadataExt};

/// A file of the system. Each of its calls is one call of `File`, and is noted with its answer.
#[derive(Drop)]
pub struct SystemFile {
    file: File,
    history: CallHistory,
}

impl SystemFile {
    /// Returns an open file that was asked nothing yet.
    pub fn new(file: File) -> SystemFile
        ensures { result.history.calls ≡ [] }
    {
        SystemFile {
            file,
            history: CallHistory::new(),
        }
    }

    /// Returns whether this is the file that `found` describes: both have one number on one device. It isn't noted,
    /// since it looks at no byte.
    ///
    /// # Errors
    ///
    /// The system's cause if it tells nothing of this file.
    pub fn is_described_by(&self, found: &Metadata) -> io::Result<bool> {
        let opened = self.file.metadata()?;
        Ok(opened.dev() == found.dev() && opened.ino() == found.ino())
    }
}

impl BlockFile for SystemFile {
    ghost calls = { λ file. file.history.calls };

    fn try_lock(&mut self) -> Result<(), TryLockError> {
        let answer = self.file.try_lock();
        self.history.note(CallKind::Lock, 0, &[], locks(&answer));
        answer
    }

    fn try_lock_shared(&mut self) -> Result<(), TryLockError> {
        let answer = self.file.try_lock_shared();
        self.history.note(CallKind::Share, 0, &[], locks(&answer));
        answer
    }

    fn measure(&mut self) -> io::Result<u64> {
        let answer = self.file.metadata().map(|told| told.len());
        self.history.note(CallKind::Measure, 0, &[], answer.ok());
        answer
    }

    fn read_at(&mut self, at: u64, out: &mut [u8]) -> io::Result<usize> {
        let answer = self.file.read_at(out, at);
        self.history.note(CallKind::Read, at, out, number(&answer));
        answer
    }

    fn write_at(&mut self, at: u64, bytes: &[u8]) -> io::Result<usize> {
        let answer = self.file.write_at(bytes, at);
        self.history
            .note(CallKind::Write, at, bytes, number(&answer));
        answer
    }

    fn sync(&mut self) -> io::Result<()> {
        let answer = self.file.sync_all();
        self.history.note(CallKind::Sync, 0, &[], done(&answer));
        answer
    }

    fn close(self) {}
}
