//! The files that the program's words name.
ghost use Rattle.std.specs.Prelude.{◌≡◌, ◌≤◌, ℕ, IfOk, List, Result, length, ⊤};
ghost use Rattle.pos_image.specs.Layout.{disk_size};
ghost use Rattle.pos_profile.specs.Entries.{Contents};
ghost use Rattle.pos_file.specs.declared.file_disk.FileDisk.{FileDisk};
ghost use Rattle.pos_mirror.specs.Mirror.{Mirror};
ghost use Rattle.pos_program.specs.ProfileFiles.{ReadsProfile};
ghost use Rattle.pos_program.specs.TotalsDisks.{AreRead, IsNewMirror, MakesTotals, OpensTotals, ReadsTotals};
ghost use Rattle.pos_program.specs.declared.file_fault.FileFault.{FileFault};
ghost use Rattle.pos_program.specs.declared.profile_fault.ProfileFileFault.{ProfileFileFault};

use crate::file_fault::FileFault;
use crate::file_system::FileSystem;
use crate::profile_fault::ProfileFileFault;
use crate::profile_file::read_profile;
use crate::totals_disk::{TotalsDisk, make_totals, open_totals};
use crate::totals_file::read_totals;
use pos_file::BlockFile;
use pos_profile::Profile;

/// The files that the program's words name by their paths. Contracts of functions over them say what they make of their
/// answers, and each type with this trait defines what it may answer.
pub trait NamedFiles {
    /// A file of totals.
    type File: BlockFile + Drop;

    /// What reading the profile in a file may answer.
    ghost gives_profile: { Self → List ℕ → Result Contents ProfileFileFault → Type 0 } = { λ _ _ _. ⊤ };

    /// What opening the disk in a file may answer.
    ghost gives_disk: { Self → List ℕ → Result (Mirror (FileDisk Self.File)) FileFault → Type 0 } = { λ _ _ _. ⊤ };

    /// What opening the disk in a file that may not be there may answer.
    ghost makes_disk: { Self → List ℕ → Result (Mirror (FileDisk Self.File)) FileFault → Type 0 } = { λ _ _ _. ⊤ };

    /// What opening the totals in a file that is only read may answer.
    ghost reads_disk: { Self → List ℕ → Result (Mirror (FileDisk Self.File)) FileFault → Type 0 } = { λ _ _ _. ⊤ };

    /// Returns the profile in the file at a path.
    ///
    /// # Errors
    ///
    /// `Unreadable` if the file can't be read, and those of `profile_of_bytes`.
    fn read_profile(&self, path: &str) -> Result<Profile, ProfileFileFault>
        ensures { gives_profile self.now path.now result };

    /// Opens the totals in the file at a path, which is there, and returns them mirrored in memory.
    ///
    /// # Errors
    ///
    /// - `Open` if the file can't be opened for reading and writing.
    /// - `InUse` if another program has locked it, or put another file in its place before it was locked.
    /// - `Lock`, `Measure`, `NotSynced`, `NotRead` and `NoMemory`.
    fn open_disk(&self, path: &str) -> Result<TotalsDisk<Self::File>, FileFault>
        ensures given { gives_disk self.now path.now result }
        ensures new { IfOk result (λ totals. IsNewMirror totals) };

    /// Opens the totals in the file at a path, and returns them mirrored in memory. The file is made if it isn't there.
    /// A file with fewer than 327,680 bytes, the length of a disk of totals, is lengthened to that.
    ///
    /// # Errors
    ///
    /// Those of `open_disk`, `Folder` if the file's folder can't be synced, and `Lengthen` and `Sync` if the file can't
    /// be lengthened.
    fn make_disk(&self, path: &str) -> Result<TotalsDisk<Self::File>, FileFault>
        ensures given { makes_disk self.now path.now result }
        ensures new { IfOk result (λ totals. IsNewMirror totals) }
        ensures length { IfOk result (λ totals. disk_size ≤ length totals.memory.present.reading) };

    /// Opens the totals in the file at a path, which is there, for reading alone, and returns them mirrored in memory.
    ///
    /// # Errors
    ///
    /// Those of `read_totals`.
    fn read_disk(&self, path: &str) -> Result<TotalsDisk<Self::File>, FileFault>
        ensures given { reads_disk self.now path.now result }
        ensures read { IfOk result (AreRead ⟦<Self::File as BlockFile>⟧.calls) };
}

/// The files of a file system. What they answer is made of what the file system answers.
#[derive(Drop)]
pub struct SystemFiles<'a, S> {
    system: &'a S,
}

impl<'a, S> SystemFiles<'a, S> {
    /// Returns the files of a file system.
    pub fn of(system: &'a S) -> SystemFiles<'a, S>
        ensures { result.system ≡ system.entry }
    {
        SystemFiles { system }
    }
}

impl<S: FileSystem + AllocGlobal> NamedFiles for SystemFiles<'_, S> {
    type File = S::File;

    ghost gives_profile = { λ files path result. ReadsProfile S.FileSystem files.system.now path result };

    ghost gives_disk = { λ files path result.
        OpensTotals S.FileSystem ⟦<S::File as BlockFile>⟧ files.system.now path result };

    ghost makes_disk = { λ files path result.
        MakesTotals S.FileSystem ⟦<S::File as BlockFile>⟧ files.system.now path result };

    ghost reads_disk = { λ files path result.
        ReadsTotals S.FileSystem ⟦<S::File as BlockFile>⟧ files.system.now path result };

    fn read_profile(&self, path: &str) -> Result<Profile, ProfileFileFault> {
        read_profile(self.system, path)
    }

    fn open_disk(&self, path: &str) -> Result<TotalsDisk<S::File>, FileFault> {
        open_totals(self.system, path)
    }

    fn make_disk(&self, path: &str) -> Result<TotalsDisk<S::File>, FileFault> {
        make_totals(self.system, path)
    }

    fn read_disk(&self, path: &str) -> Result<TotalsDisk<S::File>, FileFault> {
        read_totals(self.system, path)
    }
}
