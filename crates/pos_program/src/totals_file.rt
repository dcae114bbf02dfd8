//! The totals in a file that is only read.
ghost use Rattle.std.specs.Prelude.{◌≡◌, [], IfOk};
ghost use Rattle.pos_program.specs.Faults.{ReportsUnreadable};
ghost use Rattle.pos_program.specs.TotalsDisks.{AreRead, OpensFile, ReadsTotals, to_read};

use crate::file_fault::FileFault;
use crate::file_system::FileSystem;
use crate::totals_disk::{TotalsDisk, disk_to_read, mirrored};
use pos_file::BlockFile;
use std::fs::{File, OpenOptions};
use std::io;

// Returns why a file can't be read.
fn fault_of_read(cause: io::Error) -> FileFault
    ensures { ReportsUnreadable cause result }
{
    if cause.kind() == io::ErrorKind::OutOfMemory {
        return FileFault::NoMemory;
    }
    FileFault::Unreadable(cause)
}

// Returns how a file is opened: for reading alone.
fn options() -> OpenOptions
    ensures { result ≡ to_read }
{
    let mut options = File::options();
    options.read(true);
    options
}

/// Opens a file that is there for reading alone, and returns it. Nothing was asked of it yet.
///
/// # Errors
///
/// `Unreadable` if it can't be opened, and `NoMemory` if memory ran out.
pub fn open_file<S: FileSystem>(files: &S, path: &str) -> Result<S::File, FileFault>
    ensures opens { OpensFile S.FileSystem ReportsUnreadable files.now to_read path.now result }
    ensures new { IfOk result (λ file. ⟦<S::File as BlockFile>⟧.calls file ≡ []) }
{
    match files.open(&options(), true, path) {
        Ok(file) => Ok(file),
        Err(cause) => Err(fault_of_read(cause)),
    }
}

/// Opens the totals in a file that is there and is only read, and returns them: its first 327,680 bytes, or all if it
/// is shorter. The file is locked for reading until it is closed, so other programs may read it too. It is synced and
/// then read once, and nothing is written to it. A refusal closes it.
///
/// # Errors
///
/// - `Unreadable` if the file can't be opened for reading.
/// - `InUse` if another program has locked it for itself. Then nothing was read.
/// - Those of `disk_to_read` and `mirrored`.
pub fn read_totals<S: FileSystem + AllocGlobal>(
    files: &S,
    path: &str,
) -> Result<TotalsDisk<S::File>, FileFault>
    ensures reads { ReadsTotals S.FileSystem ⟦<S::File as BlockFile>⟧ files.now path.now result }
    ensures read { IfOk result (AreRead ⟦<S::File as BlockFile>⟧.calls) }
{
    let disk = disk_to_read(open_file(files, path)?)?;
    mirrored(files.alloc(), disk)
}
