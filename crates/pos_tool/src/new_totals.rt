//! Making totals files.
ghost use Rattle.std.specs.Prelude.{◌≡◌, IfOk, false};
ghost use Rattle.pos_tool.specs.NewTotals.{Creates, CreatesOver, FormatsLong, LocksFile, RefusesBytes};

use crate::copies::check_sound;
use crate::fault::{Fault, at_file};
use pos_file::{BlockFile, FileDisk};
use pos_program::{
    FileFault, FileSystem, TotalsDisk, close_totals, format_totals, lock_totals, mirrored,
    mirrored_long,
};
use pos_report::{Finding, are_zero};
use pos_survey::SurveyFault;
use std::alloc::Global;

// Locks the file at a path, which is made if it isn't there, and reads what is in it.
fn lock_file<S: FileSystem + AllocGlobal>(
    system: &S,
    path: &str,
) -> Result<TotalsDisk<S::File>, FileFault>
    ensures locks { LocksFile S.FileSystem ⟦<S::File as BlockFile>⟧ system.now path.now result }
    ensures sound { IfOk result (λ found. found.below.has_failed ≡ false) }
{
    let disk = lock_totals(system, path, true)?;
    mirrored(system.alloc(), disk)
}

// Formats the disk in a file, which is lengthened if it is too short.
fn format_long<S: FileSystem + AllocGlobal>(
    system: &S,
    path: &str,
    disk: FileDisk<S::File>,
) -> Result<(), FileFault>
    requires { disk.has_failed ≡ false }
    ensures { FormatsLong S.FileSystem ⟦<S::File as BlockFile>⟧ system.now path.now disk result }
{
    let totals = mirrored_long(system, path, disk)?;
    format_totals(totals)
}

// Returns why a file isn't formatted whose bytes aren't all 0.
fn fault_of_bytes<'a>(alloc: Global, path: &'a str, bytes: &[u8]) -> Fault<'a>
    ensures { RefusesBytes path.entry.now bytes.now result }
{
    match check_sound(alloc, bytes) {
        Err(SurveyFault::TooSmall | SurveyFault::Unformatted) => Fault::Taken { path },
        Err(SurveyFault::NoMemory) => Fault::NoMemory,
        _ => Fault::File {
            path,
            cause: FileFault::Formatted,
        },
    }
}

// Formats the file at a path that was locked and read, if its bytes are all 0. Any other one is closed as it is.
fn create_over<'a, S: FileSystem + AllocGlobal>(
    system: &S,
    path: &'a str,
    found: TotalsDisk<S::File>,
) -> Result<Finding, Fault<'a>>
    requires { found.below.has_failed ≡ false }
    ensures { CreatesOver S.FileSystem ⟦<S::File as BlockFile>⟧ system.now path.entry.now found result }
{
    if are_zero(found.bytes()) {
        return at_file(path, format_long(system, path, found.into_below()));
    }
    let fault = fault_of_bytes(system.alloc(), path, found.bytes());
    close_totals(found);
    Err(fault)
}

/// Makes totals without files in the file at a path. The file isn't there, is empty, or has only zero bytes among those
/// that a totals file has. Any other file stays as it is: nothing is written to it. The file is locked before it is
/// read, and until it is formatted. docs/reference/tool.md, "create".
///
/// # Errors
///
/// `File` if the file can't be read or written, is in use, or has totals; `Taken` if it has other bytes; `NoMemory`.
pub(crate) fn create<'a, S: FileSystem + AllocGlobal>(
    system: &S,
    path: &'a str,
) -> Result<Finding, Fault<'a>>
    ensures { Creates S.FileSystem ⟦<S::File as BlockFile>⟧ system.now path.entry.now result }
{
    match lock_file(system, path) {
        Ok(found) => create_over(system, path, found),
        Err(cause) => Err(Fault::File { path, cause }),
    }
}
