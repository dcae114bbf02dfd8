//! What the program without words does with a script.
ghost use Rattle.pos_run.specs.Streams.{streams_of};
ghost use Rattle.pos_console.specs.Service.{Serves};

use pos_image::new_disk;
use pos_profile::Profile;
use pos_run::{AnswerWriter, RunFault, ScriptReader, run_over_profile};
use pos_streams::{Sink, Source};
use std::alloc::Global;

/// Runs a script over the built-in profile and a formatted disk in memory. The profile has, simulated:
///
/// - A cash drawer, `d1`, and a cash drawer as a spare.
/// - A scanner, `s1`.
/// - A line display of 2 rows of 4 columns, `p1`.
/// - A receipt printer, `r1`.
/// - Hard Totals, `t1`.
///
/// # Errors
///
/// - `Read` if the script can't be read, and `Write` if the answers can't be written.
/// - `NoMemory` if memory ran out.
pub fn serve_built<R: Source, W: Sink>(
    alloc: Global,
    reader: &mut ScriptReader<R>,
    writer: &mut AnswerWriter<W>,
) -> Result<(), RunFault>
    ensures { Serves (streams_of R.Source reader.old reader.new W.Sink writer.old writer.new) result }
{
    let Ok(profile) = Profile::built(alloc) else {
        return Err(RunFault::NoMemory);
    };
    let Ok(disk) = new_disk(alloc) else {
        return Err(RunFault::NoMemory);
    };
    let (outcome, _disk) = run_over_profile(alloc, reader, writer, &profile, disk);
    outcome
}
