//! The disk of the totals in a file, mirrored in memory.
ghost use Rattle.std.specs.Prelude.{◌≡◌, ◌≤◌, IfOk, false, length, List, replicate, ℕ};
ghost use Rattle.pos_file.specs.Calls.{lock_call, share_call};
ghost use Rattle.pos_image.specs.Layout.{disk_size};
ghost use Rattle.pos_program.specs.Faults.{ReportsOpen};
ghost use Rattle.pos_program.specs.TotalsDisks.{ChecksName, ClosesRefused, IsLongEnough, IsNewMirror, LengthensDisk, LocksTotals, MakesLong, MakesTotals, MirrorsDisk, MirrorsLong, OpensDisk, OpensFile, OpensTotals, SyncsAt, SyncsFolder, ReportsDisk, ReportsMirror, folder_of, to_write};
ghost use Rattle.pos_program.specs.Locks.{ReportsUnlocked};
ghost use Rattle.pos_mirror.specs.Mirror.{mirror_state};
ghost use Rattle.pos_program.specs.MirroredFiles.{CutMayLeave, IsMirrored};

use crate::file_fault::FileFault;
use crate::file_system::FileSystem;
use pos_disk::Disk;
use pos_file::{BlockFile, DiskFileFault, FileDisk};
use pos_mirror::{MirrorDisk, MirrorFault};
use std::alloc::{AllocError, Global};
use std::fs::{File, OpenOptions};
use std::io;
use std::path::Path;

/// How many bytes a disk of totals has. No later byte of a file is read or written.
const LENGTH: u64 = 327_680;

/// The totals in a file, mirrored in memory.
pub type TotalsDisk<F> = MirrorDisk<FileDisk<F>>;

// Returns how a file is opened: for reading and writing, and made if it isn't there and may be made.
fn options(may_make: bool) -> OpenOptions
    ensures { result ≡ to_write may_make }
{
    let mut options = File::options();
    options.read(true).write(true).create(may_make);
    options
}

// Returns why a file can't be opened.
fn fault_of_open(cause: io::Error) -> FileFault
    ensures { ReportsOpen cause result }
{
    if cause.kind() == io::ErrorKind::OutOfMemory {
        return FileFault::NoMemory;
    }
    FileFault::Open(cause)
}

// Opens a file and returns it. It is made if it isn't there and may be made: for its owner alone.
fn open_file<S: FileSystem>(files: &S, path: &str, may_make: bool) -> Result<S::File, FileFault>
    ensures { OpensFile S.FileSystem ReportsOpen files.now (to_write may_make) path.now result }
{
    match files.open(&options(may_make), true, path) {
        Ok(file) => Ok(file),
        Err(cause) => Err(fault_of_open(cause)),
    }
}

// Returns the folder in which the file at a path lies.
fn folder_of(path: &str) -> &str
    ensures { result.now ≡ folder_of path.now }
{
    match Path::new(path).parent() {
        Some(folder) if !folder.as_str().is_empty() => folder.as_str(),
        _ => ".",
    }
}

// Makes the entries of a folder stay after a crash, that of an open file among them.
fn sync_at<S: FileSystem>(files: &S, file: &S::File, folder: &str) -> Result<(), FileFault>
    ensures { SyncsAt S.FileSystem files.now file.now folder.now result }
{
    match files.sync(file, folder) {
        Ok(()) => Ok(()),
        Err(cause) => Err(FileFault::Folder(cause)),
    }
}

/// Makes the entry of an open file in its folder stay after a crash. If its path is a link's, that is the folder of the
/// file that the link leads to.
///
/// # Errors
///
/// `Folder` if the folder can't be synced, or the system can't tell which it is.
pub fn sync_folder<S: FileSystem>(files: &S, file: &S::File, path: &str) -> Result<(), FileFault>
    ensures { SyncsFolder S.FileSystem files.now file.now path.now result }
{
    let target = match files.link_target(path) {
        Ok(target) => target,
        Err(cause) => return Err(FileFault::Folder(cause)),
    };
    match target {
        Some(target) => sync_at(files, file, folder_of(target.as_str())),
        None => sync_at(files, file, folder_of(path)),
    }
}

// Returns why a file can't serve as a disk.
fn fault_of_disk(cause: DiskFileFault) -> FileFault
    ensures { ReportsDisk cause result }
{
    match cause {
        DiskFileFault::InUse => FileFault::InUse,
        DiskFileFault::Lock(cause) => fault_of_lock(cause),
        DiskFileFault::Measure(cause) => FileFault::Measure(cause),
        DiskFileFault::Lengthen(cause) => FileFault::Lengthen(cause),
        DiskFileFault::Sync(cause) => FileFault::Sync(cause),
    }
}

// Closes a file that a refusal returned, and returns why it can't serve as a disk.
fn closed_fault<F: BlockFile>(cause: DiskFileFault, file: F) -> FileFault
    ensures { ClosesRefused ⟦<F as BlockFile>⟧ (cause, file) result }
{
    file.close();
    fault_of_disk(cause)
}

/// Returns the disk in an open file, which it locks for this program alone and then measures. A refusal closes it.
///
/// # Errors
///
/// - `InUse` if another program has locked the file.
/// - `Lock` if the system gives no lock, `Measure` if it doesn't report the length, and `NoMemory` if memory ran out.
pub fn disk_over<F: BlockFile + Drop>(file: F) -> Result<FileDisk<F>, FileFault>
    ensures { OpensDisk lock_call ⟦<F as BlockFile>⟧ file result }
{
    match FileDisk::over(file) {
        Ok(disk) => Ok(disk),
        Err((cause, file)) => Err(closed_fault(cause, file)),
    }
}

/// Returns the disk in an open file that is only read. It locks the file for reading and then measures it. A refusal
/// closes it.
///
/// # Errors
///
/// - `InUse` if another program has locked the file for itself.
/// - `Lock` if the system gives no lock, `Measure` if it doesn't report the length, and `NoMemory` if memory ran out.
pub fn disk_to_read<F: BlockFile + Drop>(file: F) -> Result<FileDisk<F>, FileFault>
    ensures { OpensDisk share_call ⟦<F as BlockFile>⟧ file result }
{
    match FileDisk::over_shared(file) {
        Ok(disk) => Ok(disk),
        Err((cause, file)) => Err(closed_fault(cause, file)),
    }
}

// Returns so many zero bytes.
fn zero_bytes(alloc: Global, count: u64) -> Result<Vec<u8>, AllocError>
    ensures { IfOk result (λ zeros. zeros.items ≡ replicate count 0) }
{
    vec![in alloc; 0; count as usize]
}

/// Returns a disk that isn't longer than one of totals, lengthened with zero bytes to that length, 327,680 bytes. A
/// refusal closes its file.
///
/// # Errors
///
/// `Lengthen` if the file can't be lengthened, `Sync` if the device may not have it, and `NoMemory`.
pub fn lengthened<F: BlockFile + Drop>(
    alloc: Global,
    disk: FileDisk<F>,
) -> Result<FileDisk<F>, FileFault>
    requires sound { disk.has_failed ≡ false }
    requires short { disk.size ≤ disk_size }
    ensures { LengthensDisk ⟦<F as BlockFile>⟧ disk result }
{
    let Ok(zeros) = zero_bytes(alloc, LENGTH - disk.len()) else {
        disk.close();
        return Err(FileFault::NoMemory);
    };
    match disk.lengthen(&zeros) {
        Ok(disk) => Ok(disk),
        Err((cause, file)) => Err(closed_fault(cause, file)),
    }
}

// Returns why a disk can't be mirrored.
fn fault_of_mirror(cause: MirrorFault) -> FileFault
    ensures { ReportsMirror cause result }
{
    match cause {
        MirrorFault::NoMemory => FileFault::NoMemory,
        MirrorFault::Sync => FileFault::NotSynced,
        MirrorFault::Read => FileFault::NotRead,
    }
}

/// Returns a mirror of as many bytes of the disk in a file as a disk of totals has. It syncs the disk first, and then
/// reads it. A disk that hadn't failed hasn't failed then either. A refusal closes the file.
///
/// # Errors
///
/// `NotSynced` if the sync failed, `NotRead` if the bytes can't all be read, and `NoMemory` if memory ran out.
pub fn mirrored<F: BlockFile + Drop>(
    alloc: Global,
    disk: FileDisk<F>,
) -> Result<TotalsDisk<F>, FileFault>
    ensures mirrors { MirrorsDisk ⟦<F as BlockFile>⟧ disk result }
    ensures sound { disk.has_failed ≡ false → IfOk result (λ totals. totals.below.has_failed ≡ false) }
{
    match MirrorDisk::over(disk, alloc, LENGTH) {
        Ok(totals) => Ok(totals),
        Err((cause, disk)) => {
            disk.close();
            Err(fault_of_mirror(cause))
        }
    }
}

// Checks that the file at a path is still this one. Another program may give the path to another file, as `kijolvar
// restore --replace` does, after this one was opened and before it was locked.
fn check_name<S: FileSystem>(files: &S, file: &S::File, path: &str) -> Result<(), FileFault>
    ensures { ChecksName S.FileSystem files.now file.now path.now result }
{
    match files.is_at(file, path) {
        Ok(true) => Ok(()),
        Ok(false) => Err(FileFault::InUse),
        Err(cause) => Err(fault_of_open(cause)),
    }
}

/// Returns the disk in the file at a path, which is locked for this program alone. It is made if it isn't there and may
/// be made. Nothing of it is read. A refusal closes it, and writes nothing to it.
///
/// # Errors
///
/// - `Open` if the file can't be opened for reading and writing, or the system can't tell whether it is still at the
///   path.
/// - `InUse` also if another program put another file in its place before it was locked.
/// - Those of `disk_over`.
pub fn lock_totals<S: FileSystem>(
    files: &S,
    path: &str,
    may_make: bool,
) -> Result<FileDisk<S::File>, FileFault>
    ensures locks { LocksTotals S.FileSystem ⟦<S::File as BlockFile>⟧ files.now may_make path.now result }
    ensures sound { IfOk result (λ disk. disk.has_failed ≡ false) }
{
    let disk = disk_over(open_file(files, path, may_make)?)?;
    match check_name(files, disk.file(), path) {
        Ok(()) => Ok(disk),
        Err(fault) => {
            disk.close();
            Err(fault)
        }
    }
}

/// Opens the totals in the file at a path, which is there, and returns them. The file is locked for this program alone
/// until it is closed. A refusal closes it.
///
/// # Errors
///
/// Those of `lock_totals` and `mirrored`.
pub fn open_totals<S: FileSystem + AllocGlobal>(
    files: &S,
    path: &str,
) -> Result<TotalsDisk<S::File>, FileFault>
    ensures opens { OpensTotals S.FileSystem ⟦<S::File as BlockFile>⟧ files.now path.now result }
    ensures new { IfOk result (λ totals. IsNewMirror totals) }
{
    let disk = lock_totals(files, path, false)?;
    mirrored(files.alloc(), disk)
}

// Returns a disk that is long enough. A shorter one is lengthened, and before that its folder is synced, so that a
// crash leaves no disk in a file that can't be found. A refusal closes its file.
fn long_enough<S: FileSystem + AllocGlobal>(
    files: &S,
    path: &str,
    disk: FileDisk<S::File>,
) -> Result<FileDisk<S::File>, FileFault>
    requires { disk.has_failed ≡ false }
    ensures makes { MakesLong S.FileSystem ⟦<S::File as BlockFile>⟧ files.now path.now disk result }
    ensures long { IfOk result (IsLongEnough disk) }
{
    if disk.len() >= LENGTH {
        return Ok(disk);
    }
    match sync_folder(files, disk.file(), path) {
        Ok(()) => lengthened(files.alloc(), disk),
        Err(fault) => {
            disk.close();
            Err(fault)
        }
    }
}

/// Returns a mirror of the totals on a disk in the file at a path. If the disk is shorter than one of totals, it is
/// lengthened with zero bytes before. A refusal closes the file.
///
/// # Errors
///
/// `Folder` if the file's folder can't be synced, and those of `lengthened` and `mirrored`.
pub fn mirrored_long<S: FileSystem + AllocGlobal>(
    files: &S,
    path: &str,
    disk: FileDisk<S::File>,
) -> Result<TotalsDisk<S::File>, FileFault>
    requires { disk.has_failed ≡ false }
    ensures mirrors { MirrorsLong S.FileSystem ⟦<S::File as BlockFile>⟧ files.now path.now disk result }
    ensures new { IfOk result (λ totals. IsNewMirror totals) }
    ensures length { IfOk result (λ totals. disk_size ≤ length totals.memory.present.reading) }
{
    let disk = long_enough(files, path, disk)?;
    mirrored(files.alloc(), disk)
}

/// Opens the totals in the file at a path, which is made if it isn't there, and returns them. A file with fewer bytes
/// than a disk of totals is lengthened with zero bytes. A longer one keeps its length. It is locked before anything in
/// it changes. A refusal closes it.
///
/// # Errors
///
/// Those of `lock_totals` and `mirrored_long`.
pub fn make_totals<S: FileSystem + AllocGlobal>(
    files: &S,
    path: &str,
) -> Result<TotalsDisk<S::File>, FileFault>
    ensures makes { MakesTotals S.FileSystem ⟦<S::File as BlockFile>⟧ files.now path.now result }
    ensures new { IfOk result (λ totals. IsNewMirror totals) }
    ensures length { IfOk result (λ totals. disk_size ≤ length totals.memory.present.reading) }
{
    let disk = lock_totals(files, path, true)?;
    mirrored_long(files, path, disk)
}

/// Returns why a file isn't locked: `NoMemory` if memory ran out, and otherwise `Lock` with the system's error.
pub(crate) fn fault_of_lock(cause: io::Error) -> FileFault
    ensures { ReportsUnlocked cause result }
{
    if cause.kind() == io::ErrorKind::OutOfMemory {
        return FileFault::NoMemory;
    }
    FileFault::Lock(cause)
}

/// Closes the file of totals.
pub fn close_totals<F: BlockFile + Drop>(totals: TotalsDisk<F>)
    ensures { F.closed totals.below.file }
{
    totals.into_below().close();
}

/// States that the calls of the file since the mirror read it make the disk that the mirror shows. So a power cut at
/// any moment since then leaves, of a file that keeps the crash model, what a crash may have left of the mirror.
pub fn file_is_mirrored<F: BlockFile + Drop>(mirror: &MirrorDisk<FileDisk<F>>)
    ensures file { IsMirrored F.BlockFile.calls mirror.now }
    ensures cut { (is : IsMirrored F.BlockFile.calls mirror.now) (bytes : List ℕ) → CutMayLeave is bytes
        → (mirror_state mirror.now).left_since 0 bytes }
{
    mirror.is_mirror();
}
