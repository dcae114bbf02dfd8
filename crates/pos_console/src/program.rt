//! What the program does for its words, and the status that it ends with.
ghost use Rattle.std.specs.Prelude.{map, ◌≡◌};
ghost use Rattle.std.specs.Process.{exit_status};
ghost use Rattle.pos_program.specs.Faults.{status_of};
ghost use Rattle.pos_run.specs.Streams.{streams_of};
ghost use Rattle.pos_console.specs.Program.{Does, DoesAsAsked, EndsAtDisk, EndsFormat, EndsMove, RunsFiles};
ghost use Rattle.pos_console.specs.Program.{RunsProgram, fault_of_run};

use crate::file_closer::FileCloser;
use crate::files::print_file;
use crate::scripts::serve_built;
use crate::totals_run::run_over_totals;
use pos_disk::Disk;
use pos_file::BlockFile;
use pos_program::{
    ChoiceFault, Fault, FileFault, NamedFiles, Task, TotalsDisk, choice, format_file, migrate_file,
    open_run, status_of,
};
use pos_run::{AnswerWriter, RunFault, ScriptReader};
use pos_streams::{Sink, Source};
use std::alloc::Global;
use std::convert::AsStr;
use std::io::Eprint;
use std::process::ExitCode;

/// Returns a run's end as the program's.
fn ended<'a>(outcome: Result<(), RunFault>) -> Result<(), Fault<'a>>
    ensures { result ≡ fault_of_run outcome }
{
    match outcome {
        Ok(()) => Ok(()),
        Err(RunFault::Read) => Err(Fault::Read),
        Err(RunFault::Write) => Err(Fault::Write),
        Err(RunFault::NoMemory) => Err(Fault::NoMemory),
    }
}

/// Runs the script over the profile in one file and the disk in another.
fn run_files<'a, F: NamedFiles, R: Source, W: Sink>(
    alloc: Global,
    files: &F,
    reader: &mut ScriptReader<R>,
    writer: &mut AnswerWriter<W>,
    profile: &'a str,
    disk: &'a str,
) -> Result<(), Fault<'a>>
    ensures { RunsFiles F.NamedFiles ⟦<F::File as BlockFile>⟧ ⟦<TotalsDisk<F::File> as Disk>⟧ files.now
        profile.entry.now disk.entry.now
        (streams_of R.Source reader.old reader.new W.Sink writer.old writer.new) result }
{
    let (profile, totals) = open_run(files, profile, disk)?;
    ended(run_over_totals(alloc, reader, writer, &profile, totals))
}

/// Returns an answer of the disk in a file as the program's.
fn at_disk<'a>(path: &'a str, answer: Result<(), FileFault>) -> Result<(), Fault<'a>>
    ensures { EndsAtDisk path.entry.now answer result }
{
    match answer {
        Ok(()) => Ok(()),
        Err(cause) => Err(Fault::Disk { path, cause }),
    }
}

/// Formats the disk in a file.
fn format<'a, F: NamedFiles>(files: &F, path: &'a str) -> Result<(), Fault<'a>>
    ensures { EndsFormat F.NamedFiles ⟦<F::File as BlockFile>⟧ files.now path.entry.now result }
{
    at_disk(path, format_file(files, path))
}

/// Moves the totals on the disk in a file to layout 2.
fn migrate<'a, F: NamedFiles>(alloc: Global, files: &F, path: &'a str) -> Result<(), Fault<'a>>
    ensures { EndsMove F.NamedFiles ⟦<F::File as BlockFile>⟧ files.now path.entry.now result }
{
    at_disk(path, migrate_file(alloc, files, path))
}

/// Does the task that the words of the command line ask for.
fn perform_task<'a, F: NamedFiles + FileCloser, R: Source, W: Sink>(
    alloc: Global,
    files: &F,
    reader: &mut ScriptReader<R>,
    writer: &mut AnswerWriter<W>,
    task: Task<'a>,
) -> Result<(), Fault<'a>>
    ensures { Does F.NamedFiles F.FileCloser ⟦<F::File as BlockFile>⟧ ⟦<TotalsDisk<F::File> as Disk>⟧ files.now
        task.entry (streams_of R.Source reader.old reader.new W.Sink writer.old writer.new) result }
{
    match task {
        Task::Demo => ended(serve_built(alloc, reader, writer)),
        Task::Run { profile, disk } => run_files(alloc, files, reader, writer, profile, disk),
        Task::Format { disk } => format(files, disk),
        Task::Migrate { disk } => migrate(alloc, files, disk),
        Task::Files { disk } => print_file(alloc, files, writer, disk),
    }
}

/// Does what the words of the command line ask for, if they ask for something.
fn perform_words<'a, F: NamedFiles + FileCloser, S: AsStr, R: Source, W: Sink>(
    alloc: Global,
    files: &F,
    reader: &mut ScriptReader<R>,
    writer: &mut AnswerWriter<W>,
    words: &'a [S],
) -> Result<(), Fault<'a>>
    ensures { DoesAsAsked F.NamedFiles F.FileCloser ⟦<F::File as BlockFile>⟧ ⟦<TotalsDisk<F::File> as Disk>⟧ files.now
        (map S.text words.entry.now) (streams_of R.Source reader.old reader.new W.Sink writer.old writer.new) result }
{
    match choice(alloc, words) {
        Ok(task) => perform_task(alloc, files, reader, writer, task),
        Err(fault) => Err(Fault::Words(fault)),
    }
}

/// Returns the exit status of an outcome: 0 if nothing was at fault, otherwise the fault's. It writes a fault as one
/// line to standard error, if that can be written.
pub fn end<E: Eprint>(errors: &E, outcome: Result<(), Fault<'_>>) -> ExitCode
    ensures { exit_status result ≡ status_of outcome.entry }
{
    let status = status_of(&outcome);
    if let Err(fault) = outcome {
        let _ = errors.eprintln(format_args!("pos_console: {fault}"));
    }
    ExitCode::from(status)
}

/// Does what the words ask for, if they could be read, and returns the exit status, 0 or 2 to 6. It works over the
/// files that the words name, a script to read, a writer for the answers and one for a fault.
/// docs/reference/console.md, "The program".
pub fn perform<F: NamedFiles + FileCloser, E: Eprint, S: AsStr + Drop, R: Source, W: Sink>(
    alloc: Global,
    files: &F,
    errors: &E,
    reader: &mut ScriptReader<R>,
    writer: &mut AnswerWriter<W>,
    words: Result<Vec<S>, ChoiceFault>,
) -> ExitCode
    ensures { RunsProgram F.NamedFiles F.FileCloser ⟦<F::File as BlockFile>⟧ ⟦<TotalsDisk<F::File> as Disk>⟧ files.now
        S.text words (streams_of R.Source reader.old reader.new W.Sink writer.old writer.new) (exit_status result) }
{
    match words {
        Ok(words) => {
            let outcome = perform_words(alloc, files, reader, writer, words.as_slice());
            end(errors, outcome)
        }
        Err(fault) => end(errors, Err(Fault::Words(fault))),
    }
}
