//! Moving the totals in a file to layout 2.
ghost use Rattle.std.specs.Prelude.{◌≡◌, ◌⊎◌, IsErrOf};
ghost use Rattle.pos_disk.specs.Keeps.{KeepsDisk};
ghost use Rattle.pos_disk.specs.State.{HasNotFailed};
ghost use Rattle.pos_store.specs.Migrations.{KeepsFirstLayout};
ghost use Rattle.pos_store.specs.MovedDisks.{MovesAny};
ghost use Rattle.pos_store.specs.declared.fault.StoreFault.TheVariants.{Device};
ghost use Rattle.pos_program.specs.Migrations.{MigratesFile, MigratesTotals, told_as, told_of};
ghost use Rattle.pos_program.specs.TotalsDisks.{IsNewMirror};

use crate::file_fault::FileFault;
use crate::named_files::NamedFiles;
use crate::totals_disk::{TotalsDisk, close_totals, file_is_mirrored};
use pos_disk::Disk;
use pos_file::BlockFile;
use pos_store::{Store, StoreFault};
use std::alloc::Global;

/// Moves the totals on a disk to layout 2, in place, and returns the disk. Their files stay as they are, and may be
/// more and longer from then on. docs/reference/totals-file.md, "The move to layout 2".
///
/// It recovers the totals first. It doesn't write the slots of layout 1, and a crash at any moment leaves the same
/// files by one layout or the other.
///
/// # Errors
///
/// - `Unformatted`, `Damaged`, `AlreadyLayout2` if the disk has layout 2, and `NoMemory` if memory ran out. The bytes
///   are as they were.
/// - `Device` if the disk failed. It has the files by layout 1 or by layout 2, and may be moved again.
pub fn migrate_disk<D: Disk>(alloc: Global, disk: D) -> (D, Result<(), StoreFault>)
    ensures moves { D.honest disk → MovesAny (D.state disk) (D.state result.0) result.1 }

    // Whatever it answers, no slot of layout 1 was written, and none closed.
    ensures rest { D.honest disk → KeepsFirstLayout (D.state disk).reading (D.state result.0).reading }

    // The disk failed only where its fault is answered.
    ensures counts { D.honest disk → IsErrOf result.1 Device ⊎ HasNotFailed (D.state disk) (D.state result.0) }

    ensures keeps { KeepsDisk D.Disk disk result.0 }
{
    let mut store = Store::new(alloc, disk);
    if let Err(fault) = store.recover() {
        return (store.into_disk(), Err(fault));
    }
    let outcome = store.migrate();
    (store.into_disk(), outcome)
}

// Returns a store's fault of a move as a fault of the disk's file.
fn file_fault_of(fault: StoreFault) -> FileFault
    ensures { result ≡ told_as fault }
{
    match fault {
        StoreFault::Unformatted => FileFault::Unformatted,
        StoreFault::Damaged => FileFault::Damaged,
        StoreFault::AlreadyLayout2 => FileFault::Moved,
        StoreFault::NoMemory => FileFault::NoMemoryToMove,
        _ => FileFault::Move,
    }
}

// Returns what a move answers, as an answer of the disk's file.
fn file_result(outcome: Result<(), StoreFault>) -> Result<(), FileFault>
    ensures { result ≡ told_of outcome }
{
    match outcome {
        Ok(()) => Ok(()),
        Err(fault) => Err(file_fault_of(fault)),
    }
}

/// Moves the totals in a file to layout 2, as `migrate_disk` does. The file is written and synced as the disk is, and
/// then closed.
///
/// # Errors
///
/// - `Unformatted`, `Damaged`, `Moved` if they have layout 2, and `NoMemoryToMove` if memory ran out. The bytes are as
///   they were.
/// - `Move` if the file failed. It has the files by one layout or the other.
pub fn migrate_totals<F: BlockFile + Drop>(
    alloc: Global,
    totals: TotalsDisk<F>,
) -> Result<(), FileFault>
    requires { IsNewMirror totals }
    ensures { MigratesTotals ⟦<F as BlockFile>⟧ totals result }
{
    let (after, outcome) = migrate_disk(alloc, totals);
    file_is_mirrored(&after);
    close_totals(after);
    file_result(outcome)
}

/// Moves the totals in the file at a path, which is there, to layout 2.
///
/// # Errors
///
/// Those of `NamedFiles::open_disk`, and those of `migrate_totals`.
pub fn migrate_file<F: NamedFiles>(alloc: Global, files: &F, path: &str) -> Result<(), FileFault>
    ensures { MigratesFile F.NamedFiles ⟦<F::File as BlockFile>⟧ files.now path.now result }
{
    match files.open_disk(path) {
        Ok(totals) => migrate_totals(alloc, totals),
        Err(cause) => Err(cause),
    }
}
