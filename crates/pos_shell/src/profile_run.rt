//! Runs over a counter that is simulated for a profile: of scripts, or of what is typed.
ghost use Rattle.std.specs.Prelude.{◌≡◌, ◌⊎◌, Err, List};
ghost use Rattle.pos_counter.specs.Counters.{IsCounterSound, IsRun};
ghost use Rattle.pos_counter.specs.Steps.{Request, Response};
ghost use Rattle.pos_run.specs.Names.{ControlNames};
ghost use Rattle.pos_run.specs.Spares.{AreSparesSound, spares_in};
ghost use Rattle.pos_run.specs.Transcript.{begun_session, session_with};
ghost use Rattle.pos_shell.specs.Outputs.{streams_of};
ghost use Rattle.pos_shell.specs.ProfileRun.{LeavesLines, PrintsAll, lines_in};

use crate::answer_texts::AnswerStyle;
use crate::conversation::converse;
use crate::scripts::{Script, ScriptsFault, print_scripts};
use pos_counter::Counter;
use pos_disk::Disk;
use pos_profile::Profile;
use pos_run::{AsSimulated, Names, Spares, end_counter, simulate_profile};
use pos_script::LineBuffer;
use pos_service::{Ends, NoMemory, Peripheral};
use pos_streams::{Sink, Source};
use std::alloc::Global;

// Runs scripts, or what is typed, over a counter whose controls have no names yet, and tells the answers.
fn print_all<R: Source, W: Sink, D: Disk, P: Peripheral + Ends>(
    alloc: Global,
    style: &AnswerStyle<'_>,
    scripts: Option<&[Script<'_>]>,
    reader: &mut R,
    writer: &mut W,
    counter: &mut Counter<D, P>,
    spares: &mut Spares<P>,
) -> Result<(), ScriptsFault>
    requires sound { IsCounterSound P.Peripheral counter.old }
    requires spares { AreSparesSound P.Peripheral spares.old }
    ensures told { (steps : List (Request × Response)) × (names : ControlNames)
        × IsRun D.Disk P.Peripheral counter.old steps counter.new
        × PrintsAll style.now (lines_in scripts.entry) (begun_session (spares_in P.Peripheral spares.old)) steps
        (streams_of R.Source reader.old W.Sink writer.old) (streams_of R.Source reader.new W.Sink writer.new) result
        (session_with names (spares_in P.Peripheral spares.new)) }
    ensures sound { IsCounterSound P.Peripheral counter.new }
    ensures spares { AreSparesSound P.Peripheral spares.new }
{
    let Ok(mut buffer) = LineBuffer::new(alloc) else {
        return Err(ScriptsFault::NoMemory);
    };
    let mut names = Names::new(alloc);
    match scripts {
        Some(scripts) => print_scripts(
            alloc,
            style,
            scripts,
            writer,
            &mut buffer,
            counter,
            &mut names,
            spares,
        ),
        None => converse(
            alloc,
            style,
            reader,
            writer,
            &mut buffer,
            counter,
            &mut names,
            spares,
        ),
    }
}

/// Runs scripts in order over a counter of a profile's devices and a disk, with the profile's spares, all simulated;
/// and tells what their lines are answered, script by script. The controls of a script are there in the next ones.
/// Without scripts it runs what is typed, line by line. Returns how that ended, and the disk.
///
/// # Errors
///
/// Those of [`ScriptsFault`]: later lines weren't run.
pub(crate) fn run_lines<R: Source, W: Sink, D: Disk>(
    alloc: Global,
    style: &AnswerStyle<'_>,
    profile: &Profile,
    scripts: Option<&[Script<'_>]>,
    reader: &mut R,
    writer: &mut W,
    disk: D,
) -> (Result<(), ScriptsFault>, D)
    ensures { LeavesLines D.Disk style.now profile.now (lines_in scripts.entry) disk
        (streams_of R.Source reader.old W.Sink writer.old) (streams_of R.Source reader.new W.Sink writer.new)
        result.0 result.1 }
{
    let (mut counter, mut spares) = match simulate_profile(alloc, profile, disk, &AsSimulated) {
        Ok(made) => made,
        Err((NoMemory, disk)) => return (Err(ScriptsFault::NoMemory), disk),
    };
    let result = print_all(
        alloc,
        style,
        scripts,
        reader,
        writer,
        &mut counter,
        &mut spares,
    );
    let disk = end_counter(counter);
    spares.park_all();
    (result, disk)
}
