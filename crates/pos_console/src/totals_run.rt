//! A run over a profile and the totals in a file.
ghost use Rattle.pos_console.specs.TotalsRuns.{TotalsLeave};
ghost use Rattle.pos_program.specs.TotalsDisks.{IsNewMirror};
ghost use Rattle.pos_run.specs.Streams.{streams_of};

use pos_disk::Disk;
use pos_file::BlockFile;
use pos_profile::Profile;
use pos_program::{TotalsDisk, close_totals, file_is_mirrored};
use pos_run::{AnswerWriter, RunFault, ScriptReader, run_over_profile};
use pos_streams::{Sink, Source};
use std::alloc::Global;

/// Runs a script over simulated devices of a profile and the totals in a file, which is closed after the run.
///
/// # Errors
///
/// - `Read` if the script can't be read, and `Write` if the answers can't be written.
/// - `NoMemory` if memory ran out.
pub fn run_over_totals<R: Source, W: Sink, F: BlockFile + Drop>(
    alloc: Global,
    reader: &mut ScriptReader<R>,
    writer: &mut AnswerWriter<W>,
    profile: &Profile,
    totals: TotalsDisk<F>,
) -> Result<(), RunFault>
    requires { IsNewMirror totals }
    ensures { TotalsLeave ⟦<F as BlockFile>⟧ ⟦<TotalsDisk<F> as Disk>⟧ profile.now totals
        (streams_of R.Source reader.old reader.new W.Sink writer.old writer.new) result }
{
    let (outcome, after) = run_over_profile(alloc, reader, writer, profile, totals);
    file_is_mirrored(&after);
    close_totals(after);
    outcome
}
