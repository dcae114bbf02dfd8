//! Runs of scripts in files, or of what is typed, over a profile and totals.
ghost use Rattle.std.specs.Prelude.{◌≡◌, None};
ghost use Rattle.pos_program.specs.Answers.{bytes_of};
ghost use Rattle.pos_program.specs.TotalsDisks.{IsNewMirror};
ghost use Rattle.pos_shell.specs.Outputs.{streams_of};
ghost use Rattle.pos_shell.specs.ProfileRun.{lines_in};
ghost use Rattle.pos_shell.specs.Runs.{GivesProfile, ReadsEach, ReadsPath, Runs, RunsAll, RunsInMemory, RunsOver};
ghost use Rattle.pos_shell.specs.Runs.{RunsOverTotals, ended, scripts_of};

use crate::answer_texts::AnswerStyle;
use crate::input::read_rest;
use crate::profile_run::run_lines;
use crate::scripts::{Script, ScriptsFault};
use pos_disk::{Disk, MemDisk};
use pos_file::BlockFile;
use pos_image::new_disk;
use pos_profile::Profile;
use pos_program::{
    FileFault, FileSystem, NamedFiles, ProfileFileFault, TotalsDisk, close_totals, file_is_mirrored,
};
use pos_streams::{Sink, Source};
use std::alloc::Global;
use std::io;

/// Why scripts in files aren't run, or not to their end.
#[derive(Drop)]
pub enum RunFault<'a> {
    /// A script can't be read. Nothing was run.
    Script {
        /// Its path.
        path: &'a str,
        /// Why.
        cause: io::Error,
    },
    /// Standard input can't be read to its end. Nothing was run.
    Input,
    /// The profile can't be read, or is none. Nothing was run.
    Profile {
        /// Its path.
        path: &'a str,
        /// Why.
        cause: ProfileFileFault,
    },
    /// The totals file can't be opened. Nothing was run.
    Totals {
        /// Its path.
        path: &'a str,
        /// Why.
        cause: FileFault,
    },
    /// The run stopped.
    Stopped(ScriptsFault),
}

// Reads the script at a path; for `-` all that the reader has left.
fn read_script<'a, S: FileSystem, R: Source>(
    alloc: Global,
    system: &S,
    path: &'a str,
    reader: &mut R,
) -> Result<Vec<u8>, RunFault<'a>>
    ensures { ReadsPath S.FileSystem system.now path.entry (R.taken reader.old) (R.taken reader.new) (bytes_of result) }
{
    if path == "-" {
        return read_rest(alloc, reader);
    }
    match system.read(path) {
        Ok(text) => Ok(text),
        Err(cause) => Err(RunFault::Script { path, cause }),
    }
}

// Reads the scripts at paths, in order.
fn read_scripts<'a, S: FileSystem, R: Source>(
    alloc: Global,
    system: &S,
    paths: &[&'a str],
    reader: &mut R,
) -> Result<Vec<Script<'a>>, RunFault<'a>>
    ensures { ReadsEach S.FileSystem system.now paths.entry.now (R.taken reader.old) (R.taken reader.new)
        (scripts_of result) }
{
    let mut scripts = Vec::new(alloc);
    for path in paths {
        let name = *path;
        match read_script(alloc, system, name, reader) {
            Ok(text) => {
                let Ok(()) = scripts.push(Script { name, text }) else {
                    return Err(RunFault::Stopped(ScriptsFault::NoMemory));
                };
            }
            Err(fault) => return Err(fault),
        }
    }
    Ok(scripts)
}

/// Returns the profile at a path, or the built-in one.
///
/// # Errors
///
/// `Profile` if it can't be read or is none, and `Stopped` for want of memory.
pub fn profile_at<'a, F: NamedFiles>(
    alloc: Global,
    files: &F,
    path: Option<&'a str>,
) -> Result<Profile, RunFault<'a>>
    ensures { GivesProfile F.NamedFiles files.now path.entry result }
{
    let Some(path) = path else {
        return match Profile::built(alloc) {
            Ok(profile) => Ok(profile),
            Err(_) => Err(RunFault::Stopped(ScriptsFault::NoMemory)),
        };
    };
    match files.read_profile(path) {
        Ok(profile) => Ok(profile),
        Err(cause) => Err(RunFault::Profile { path, cause }),
    }
}

// What a run that began ended with.
fn at_end<'a>(answer: Result<(), ScriptsFault>) -> Result<(), RunFault<'a>>
    ensures { result ≡ ended answer }
{
    match answer {
        Ok(()) => Ok(()),
        Err(fault) => Err(RunFault::Stopped(fault)),
    }
}

// Runs lines over a profile and totals in memory.
fn run_in_memory<'a, R: Source, W: Sink>(
    alloc: Global,
    style: &AnswerStyle<'_>,
    profile: &Profile,
    scripts: Option<&[Script<'_>]>,
    reader: &mut R,
    writer: &mut W,
) -> Result<(), RunFault<'a>>
    ensures { RunsInMemory ⟦<MemDisk as Disk>⟧ style.now profile.now (lines_in scripts.entry)
        (streams_of R.Source reader.old W.Sink writer.old) (streams_of R.Source reader.new W.Sink writer.new) result }
{
    let Ok(disk) = new_disk(alloc) else {
        return Err(RunFault::Stopped(ScriptsFault::NoMemory));
    };
    let (answer, _disk) = run_lines(alloc, style, profile, scripts, reader, writer, disk);
    at_end(answer)
}

// Runs lines over a profile and the totals in a file, which is closed after the run.
fn run_over_totals<'a, R: Source, W: Sink, F: BlockFile + Drop>(
    alloc: Global,
    style: &AnswerStyle<'_>,
    profile: &Profile,
    scripts: Option<&[Script<'_>]>,
    reader: &mut R,
    writer: &mut W,
    totals: TotalsDisk<F>,
) -> Result<(), RunFault<'a>>
    requires { IsNewMirror totals }
    ensures { RunsOverTotals ⟦<F as BlockFile>⟧ ⟦<TotalsDisk<F> as Disk>⟧ style.now profile.now
        (lines_in scripts.entry) totals (streams_of R.Source reader.old W.Sink writer.old)
        (streams_of R.Source reader.new W.Sink writer.new) result }
{
    let (answer, after) = run_lines(alloc, style, profile, scripts, reader, writer, totals);
    file_is_mirrored(&after);
    close_totals(after);
    at_end(answer)
}

// Runs lines over a profile and the totals in the file at a path, or in memory.
fn run_over<'a, F: NamedFiles, R: Source, W: Sink>(
    alloc: Global,
    files: &F,
    style: &AnswerStyle<'_>,
    profile: &Profile,
    scripts: Option<&[Script<'_>]>,
    reader: &mut R,
    writer: &mut W,
    path: Option<&'a str>,
) -> Result<(), RunFault<'a>>
    ensures { RunsOver F.NamedFiles ⟦<F::File as BlockFile>⟧ ⟦<TotalsDisk<F::File> as Disk>⟧ ⟦<MemDisk as Disk>⟧
        files.now style.now profile.now (lines_in scripts.entry) path.entry
        (streams_of R.Source reader.old W.Sink writer.old) (streams_of R.Source reader.new W.Sink writer.new) result }
{
    let Some(path) = path else {
        return run_in_memory(alloc, style, profile, scripts, reader, writer);
    };
    match files.open_disk(path) {
        Ok(totals) => run_over_totals(alloc, style, profile, scripts, reader, writer, totals),
        Err(cause) => Err(RunFault::Totals { path, cause }),
    }
}

// Runs lines over the profile at a path, or the built-in one, and the totals in the file at a path, or in memory.
fn run_all<'a, F: NamedFiles, R: Source, W: Sink>(
    alloc: Global,
    files: &F,
    style: &AnswerStyle<'_>,
    scripts: Option<&[Script<'_>]>,
    profile: Option<&'a str>,
    totals: Option<&'a str>,
    reader: &mut R,
    writer: &mut W,
) -> Result<(), RunFault<'a>>
    ensures { RunsAll F.NamedFiles ⟦<F::File as BlockFile>⟧ ⟦<TotalsDisk<F::File> as Disk>⟧ ⟦<MemDisk as Disk>⟧
        files.now style.now (lines_in scripts.entry) profile.entry totals.entry
        (streams_of R.Source reader.old W.Sink writer.old) (streams_of R.Source reader.new W.Sink writer.new) result }
{
    match profile_at(alloc, files, profile) {
        Ok(profile) => run_over(
            alloc, files, style, &profile, scripts, reader, writer, totals,
        ),
        Err(fault) => Err(fault),
    }
}

/// Runs the scripts at paths, in order and over one counter: that of the profile at a path, or of the built-in one;
/// with the totals in the file at a path, or in memory. It tells what each line is answered. All files are read before
/// anything is run. A path `-` is all that the reader has left; nothing else is read from it. docs/reference/tool.md,
/// "run".
///
/// # Errors
///
/// `Script`, `Input`, `Profile` or `Totals` for the first of them that can't serve: nothing was run. `Stopped` if the
/// run stopped, or if there was no memory to begin.
pub fn run<'a, F: NamedFiles, S: FileSystem, R: Source, W: Sink>(
    alloc: Global,
    files: &F,
    system: &S,
    style: &AnswerStyle<'_>,
    paths: &[&'a str],
    profile: Option<&'a str>,
    totals: Option<&'a str>,
    reader: &mut R,
    writer: &mut W,
) -> Result<(), RunFault<'a>>
    ensures { Runs F.NamedFiles ⟦<F::File as BlockFile>⟧ ⟦<TotalsDisk<F::File> as Disk>⟧ ⟦<MemDisk as Disk>⟧ files.now
        S.FileSystem system.now style.now paths.entry.now profile.entry totals.entry
        (streams_of R.Source reader.old W.Sink writer.old) (streams_of R.Source reader.new W.Sink writer.new) result }
{
    let scripts = match read_scripts(alloc, system, paths, reader) {
        Ok(scripts) => scripts,
        Err(fault) => return Err(fault),
    };
    let lines = Some(scripts.as_slice());
    run_all(alloc, files, style, lines, profile, totals, reader, writer)
}

/// Runs what is typed, over the same counter and totals as [`run`]. Before each line a prompt is written; each line is
/// run and told before the next one is read. It goes on to the end of what is typed, or to a line `quit`.
/// docs/reference/tool.md, "run".
///
/// # Errors
///
/// `Profile` or `Totals` for the first file that can't serve: nothing was read. `Stopped` if the run stopped, or if
/// there was no memory to begin.
pub fn run_typed<'a, F: NamedFiles, R: Source, W: Sink>(
    alloc: Global,
    files: &F,
    style: &AnswerStyle<'_>,
    profile: Option<&'a str>,
    totals: Option<&'a str>,
    reader: &mut R,
    writer: &mut W,
) -> Result<(), RunFault<'a>>
    ensures { RunsAll F.NamedFiles ⟦<F::File as BlockFile>⟧ ⟦<TotalsDisk<F::File> as Disk>⟧ ⟦<MemDisk as Disk>⟧
        files.now style.now None profile.entry totals.entry
        (streams_of R.Source reader.old W.Sink writer.old) (streams_of R.Source reader.new W.Sink writer.new) result }
{
    run_all(alloc, files, style, None, profile, totals, reader, writer)
}
