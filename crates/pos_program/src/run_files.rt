//! What a run needs of files.
ghost use Rattle.std.specs.Prelude.{IfOk};
ghost use Rattle.pos_program.specs.Openings.{ClosesOpened, FirstFault, OpensRun};
ghost use Rattle.pos_program.specs.TotalsDisks.{IsNewMirror};

use crate::fault::Fault;
use crate::file_fault::FileFault;
use crate::named_files::NamedFiles;
use crate::profile_fault::ProfileFileFault;
use crate::totals_disk::{TotalsDisk, close_totals};
use pos_file::BlockFile;
use pos_profile::Profile;

// Closes the file of totals, if they were opened.
fn close_opened<F: BlockFile + Drop>(opened: Result<TotalsDisk<F>, FileFault>)
    ensures { ClosesOpened ⟦<F as BlockFile>⟧ opened }
{
    if let Ok(totals) = opened {
        close_totals(totals);
    }
}

// Returns what both files gave, or the first fault: the profile's if both are at fault. A fault closes the disk's file.
fn first_fault<'a, F: BlockFile + Drop>(
    profile_path: &'a str,
    profile: Result<Profile, ProfileFileFault>,
    disk_path: &'a str,
    disk: Result<TotalsDisk<F>, FileFault>,
) -> Result<(Profile, TotalsDisk<F>), Fault<'a>>
    ensures { FirstFault ⟦<F as BlockFile>⟧ profile_path.entry.now profile disk_path.entry.now disk result }
{
    match (profile, disk) {
        (Ok(profile), Ok(disk)) => Ok((profile, disk)),
        (Err(cause), disk) => {
            close_opened(disk);
            Err(Fault::Profile {
                path: profile_path,
                cause,
            })
        }
        (Ok(_), Err(cause)) => Err(Fault::Disk {
            path: disk_path,
            cause,
        }),
    }
}

/// Returns the profile in one file, and the disk in another.
///
/// # Errors
///
/// `Profile` if the profile's file is at fault, also if both are, and otherwise `Disk` if the disk's is. A fault closes
/// the disk's file.
pub fn open_run<'a, F: NamedFiles>(
    files: &F,
    profile_path: &'a str,
    disk_path: &'a str,
) -> Result<(Profile, TotalsDisk<F::File>), Fault<'a>>
    ensures opens { OpensRun F.NamedFiles ⟦<F::File as BlockFile>⟧ files.now profile_path.entry.now disk_path.entry.now
        result }
    ensures new { IfOk result (λ opened. IsNewMirror opened.1) }
{
    let profile = files.read_profile(profile_path);
    let disk = files.open_disk(disk_path);
    first_fault(profile_path, profile, disk_path, disk)
}
