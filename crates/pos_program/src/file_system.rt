//! What the program asks of the file system.
ghost use Rattle.std.specs.Prelude.{◌≡◌, [], Bool, IfOk, List, Option, Result, ℕ, ⊤};
ghost use Rattle.std.specs.declared.fs.options.OpenOptions.{OpenOptions as Options};
ghost use Rattle.std.specs.declared.io.Error.{Error};
ghost use Rattle.pos_program.specs.Answers.{bytes_of, text_in};

use pos_file::{BlockFile, SystemFile};
use std::fs::{File, OpenFile, OpenOptions};
use std::os::unix::fs::OpenOptionsExt;
use std::rt::Files;
use std::{fs, io};

// The mode of a private file: its owner may read and write it.
const OWNER_ALONE: u32 = 0o600;

/// A file system. Contracts of functions over it say what they make of its answers, and each type with this trait
/// defines what it may answer. No contract can say anything of the system's own.
pub trait FileSystem {
    /// An open file.
    type File: BlockFile + Drop;

    /// What reading the file at a path may answer.
    ghost reads: { Self → List ℕ → Result (List ℕ) Error → Type 0 } = { λ _ _ _. ⊤ };

    /// What opening the file at a path may answer, by whether one that it makes is private.
    ghost opens: { Self → Options → Bool → List ℕ → Result Self.File Error → Type 0 } = { λ _ _ _ _ _. ⊤ };

    /// What asking whether the file at a path is this open one may answer.
    ghost names: { Self → Self.File → List ℕ → Result Bool Error → Type 0 } = { λ _ _ _ _. ⊤ };

    /// What asking where a link at a path leads may answer: the path of its file, or none if the path is no link's.
    ghost leads: { Self → List ℕ → Result (Option (List ℕ)) Error → Type 0 } = { λ _ _ _. ⊤ };

    /// What syncing the folder at a path may answer, for an open file in it.
    ghost syncs: { Self → Self.File → List ℕ → Result (Unit {0}) Error → Type 0 } = { λ _ _ _ _. ⊤ };

    /// Returns the bytes of the file at a path.
    ///
    /// # Errors
    ///
    /// The system's error, which says why the file can't be read.
    fn read(&self, path: &str) -> io::Result<Vec<u8>>
        ensures { reads self.now path.now (bytes_of result) };

    /// Opens the file at a path, and returns it. No call of it was made yet. If it makes the file, a private one may be
    /// read and written by its owner alone, and another one by whom the system lets.
    ///
    /// # Errors
    ///
    /// The system's error, which says why the file can't be opened.
    fn open(&self, how: &OpenOptions, is_private: bool, path: &str) -> io::Result<Self::File>
        ensures opened { opens self.now how.now is_private path.now result }
        ensures new { IfOk result (λ file. ⟦<Self::File as BlockFile>⟧.calls file ≡ []) };

    /// Returns whether the file at a path is this open one. It isn't if another one took its place, or none is there.
    ///
    /// # Errors
    ///
    /// The system's error, which says why it can't tell.
    fn is_at(&self, file: &Self::File, path: &str) -> io::Result<bool>
        ensures { names self.now file.now path.now result };

    /// Returns the path of the file that the link at a path leads to. The folder in it is the one that the file is in.
    /// Returns `None` if the path is no link's.
    ///
    /// # Errors
    ///
    /// The system's error, which says why it can't tell.
    fn link_target(&self, path: &str) -> io::Result<Option<String>>
        ensures { leads self.now path.now (text_in result) };

    /// Makes the entries of the folder at a path stay after a crash, among them that of an open file. Contracts name
    /// the file with the calls that it was asked before, and so say that its folder is synced before it grows.
    ///
    /// # Errors
    ///
    /// The system's error, which says why the folder can't be opened or synced.
    fn sync(&self, file: &Self::File, folder: &str) -> io::Result<()>
        ensures { syncs self.now file.now folder.now result };
}

// Refuses what is there and is no file: to open a pipe waits for another program. Opening tells of what isn't there.
fn check_kind<R: Files>(files: &R, path: &str) -> io::Result<()> {
    match fs::metadata(files, path) {
        Ok(found) if !found.is_file() => Err(io::Error::other(
            "is no file, but a folder, a pipe or a device",
        )),
        _ => Ok(()),
    }
}

impl<R: Files<File = File> + AllocGlobal> FileSystem for R {
    type File = SystemFile;

    fn read(&self, path: &str) -> io::Result<Vec<u8>> {
        fs::read(self, path)
    }

    fn open(&self, how: &OpenOptions, is_private: bool, path: &str) -> io::Result<SystemFile> {
        check_kind(self, path)?;
        let mut how = how.clone()?;
        if is_private {
            how.mode(OWNER_ALONE);
        }
        match how.open(self, path) {
            Ok(file) => Ok(SystemFile::new(file)),
            Err(cause) => Err(cause),
        }
    }

    fn is_at(&self, file: &SystemFile, path: &str) -> io::Result<bool> {
        match fs::metadata(self, path) {
            Ok(found) => file.is_described_by(&found),
            Err(cause) if cause.kind() == io::ErrorKind::NotFound => Ok(false),
            Err(cause) => Err(cause),
        }
    }

    fn link_target(&self, path: &str) -> io::Result<Option<String>> {
        if !fs::symlink_metadata(self, path)?.is_symlink() {
            return Ok(None);
        }
        Ok(Some(self.canonicalize(self.alloc(), path)?.into_string()))
    }

    fn sync(&self, _file: &SystemFile, folder: &str) -> io::Result<()> {
        File::open(self, folder)?.sync_all()
    }
}
