//! Formatting a file.
ghost use Rattle.std.specs.Prelude.{IfErr, IfOk, length, ◌≤◌};
ghost use Rattle.pos_image.specs.Layout.{disk_size};
ghost use Rattle.pos_image.specs.NewDisk.{KeepsRest};
ghost use Rattle.pos_program.specs.Formats.{FormatsFile, FormatsTotals, IsFormatted, IsNotFormatted, disk_of};
ghost use Rattle.pos_program.specs.TotalsDisks.{IsNewMirror};

use crate::file_fault::FileFault;
use crate::named_files::NamedFiles;
use crate::totals_disk::{TotalsDisk, close_totals, file_is_mirrored};
use pos_disk::Disk;
use pos_file::BlockFile;
use pos_image::{ImageFault, Images};

/// Formats a disk that is long enough, and returns it: it has totals without files then. docs/reference/totals-file.md,
/// "Formatting".
///
/// # Errors
///
/// - `Formatted` if the disk has totals. They stay as they are.
/// - `Device` if the disk failed.
///
/// A refusal returns the disk.
pub fn format_disk<D: Disk + Drop>(disk: D) -> Result<D, (FileFault, D)>
    requires { disk_size ≤ D.size disk }
    ensures formatted { D.honest disk → IfOk result (λ formatted. IsFormatted (D.state disk) (D.state formatted)) }
    ensures refused { D.honest disk → IfErr result (λ e. IsNotFormatted (D.state disk) (D.state e.1) e.0) }
    ensures rest { D.honest disk → KeepsRest (D.state disk).reading (D.state (disk_of result)).reading }
{
    match Images::format(disk) {
        Ok(disk) => Ok(disk),
        Err((ImageFault::AlreadyFormatted, disk)) => Err((FileFault::Formatted, disk)),
        Err((_, disk)) => Err((FileFault::Device, disk)),
    }
}

/// Formats the totals in a file, as `format_disk` does. The file is written and synced as the disk is, and then closed.
///
/// # Errors
///
/// `Formatted` and `Device`, as `format_disk` has them.
pub fn format_totals<F: BlockFile + Drop>(totals: TotalsDisk<F>) -> Result<(), FileFault>
    requires new { IsNewMirror totals }
    requires large { disk_size ≤ length totals.memory.present.reading }
    ensures { FormatsTotals ⟦<F as BlockFile>⟧ totals result }
{
    match format_disk(totals) {
        Ok(after) => {
            file_is_mirrored(&after);
            close_totals(after);
            Ok(())
        }
        Err((fault, after)) => {
            file_is_mirrored(&after);
            close_totals(after);
            Err(fault)
        }
    }
}

/// Formats the totals in the file at a path, which is made if it isn't there.
///
/// # Errors
///
/// Those of `NamedFiles::make_disk`, and those of `format_totals`.
pub fn format_file<F: NamedFiles>(files: &F, path: &str) -> Result<(), FileFault>
    ensures { FormatsFile F.NamedFiles ⟦<F::File as BlockFile>⟧ files.now path.now result }
{
    match files.make_disk(path) {
        Ok(totals) => format_totals(totals),
        Err(cause) => Err(cause),
    }
}
