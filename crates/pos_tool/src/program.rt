//! What the program does for its words, and the status that it ends with.
ghost use Rattle.std.specs.Prelude.{◌≡◌, map};
ghost use Rattle.std.specs.Process.{exit_status};
ghost use Rattle.pos_tool.specs.Faults.{status_of};
ghost use Rattle.pos_shell.specs.Outputs.{output_of, streams_of};
ghost use Rattle.pos_tool.specs.Program.{Completes, DoesAsAsked, DoesTask, Explains, ExplainsAsked, ExplainsBoth};
ghost use Rattle.pos_tool.specs.Program.{RunsProgram, TextOfBoth, are_both, fault_of_unread, is_watched};
ghost use Rattle.pos_program.specs.Answers.{bytes_of};

use crate::answers::{print, print_file, write_difference};
use crate::commands::{Task, choice};
use crate::copies::{back_up, load, restore, salvage};
use crate::fault::{Fault, WordsFault, at_file, status_of};
use crate::folder::Folder;
use crate::new_totals::create;
use crate::scripts::{run_paths, try_paths};
use pos_disk::{Disk, MemDisk};
use pos_file::BlockFile;
use pos_program::{ChoiceFault, FileSystem, NamedFiles, TotalsDisk, migrate_file};
use pos_report::{Code, Finding, explained, explained_as};
use pos_shell::ProgressReport;
use pos_streams::{Sink, Source};
use std::alloc::Global;
use std::convert::AsStr;
use std::io::Eprint;
use std::process::ExitCode;

/// The texts that the program prints as they are, and the codes that it explains.
#[derive(Drop)]
pub struct Pages<'a> {
    /// The help.
    pub help: &'a str,
    /// The version, alone.
    pub version: &'a str,
    /// The line that has the version.
    pub version_line: &'a str,
    /// The codes.
    pub codes: &'a [Code<'a>],
    /// The help for lines that are typed.
    pub lines_help: &'a str,
    /// The man page.
    pub man: &'a str,
    /// What completes the words of bash.
    pub bash: &'a str,
    /// What completes the words of zsh.
    pub zsh: &'a str,
    /// What completes the words of fish.
    pub fish: &'a str,
}

/// Which of the program's streams are terminals.
#[derive(Clone, Copy)]
pub struct Terminals {
    /// Its input is one.
    pub input: bool,
    /// Its output is one.
    pub output: bool,
    /// Its errors are one.
    pub errors: bool,
}

impl Terminals {
    // Whether both are terminals.
    fn are_both(self) -> bool
        ensures { result ≡ are_both self }
    {
        self.input && self.output
    }

    // Whether a person who types sees the errors.
    fn is_watched(self) -> bool
        ensures { result ≡ is_watched self }
    {
        self.input && self.errors
    }
}

// Prints what a code means.
fn explain_one<'a, W: Sink>(
    alloc: Global,
    writer: &mut W,
    codes: &[Code<'_>],
    code: &'a str,
) -> Result<Finding, Fault<'a>>
    ensures { Explains codes.now code.entry.now (output_of W.Sink writer.old) (output_of W.Sink writer.new) result }
{
    let Ok(text) = explained(alloc, codes, code) else {
        return Err(Fault::NoMemory);
    };
    if text.is_empty() {
        return Err(Fault::NoCode { code });
    }
    print(writer, &text)
}

// What a result code means, and the extended code after it.
fn text_of_both<'a>(
    alloc: Global,
    codes: &[Code<'_>],
    code: &'a str,
    extended: &'a str,
) -> Result<Vec<u8>, Fault<'a>>
    ensures { TextOfBoth codes.now code.entry.now extended.entry.now (bytes_of result) }
{
    let Ok(mut text) = explained_as(alloc, codes, "result code", code) else {
        return Err(Fault::NoMemory);
    };
    if text.is_empty() {
        return Err(Fault::NoResultCode { code });
    }
    let Ok(more) = explained_as(alloc, codes, "extended code", extended) else {
        return Err(Fault::NoMemory);
    };
    if more.is_empty() {
        return Err(Fault::NoExtendedCode { code: extended });
    }
    let Ok(()) = text.extend_from_slice(&more) else {
        return Err(Fault::NoMemory);
    };
    Ok(text)
}

// Prints what a result code means, and the extended code after it.
fn explain_both<'a, W: Sink>(
    alloc: Global,
    writer: &mut W,
    codes: &[Code<'_>],
    code: &'a str,
    extended: &'a str,
) -> Result<Finding, Fault<'a>>
    ensures { ExplainsBoth codes.now code.entry.now extended.entry.now (output_of W.Sink writer.old)
        (output_of W.Sink writer.new) result }
{
    match text_of_both(alloc, codes, code, extended) {
        Ok(text) => print(writer, &text),
        Err(fault) => Err(fault),
    }
}

// Prints what a code means, alone or with the extended code after it.
fn explain<'a, W: Sink>(
    alloc: Global,
    writer: &mut W,
    codes: &[Code<'_>],
    code: &'a str,
    extended: Option<&'a str>,
) -> Result<Finding, Fault<'a>>
    ensures { ExplainsAsked codes.now code.entry.now extended.entry (output_of W.Sink writer.old)
        (output_of W.Sink writer.new) result }
{
    match extended {
        Some(extended) => explain_both(alloc, writer, codes, code, extended),
        None => explain_one(alloc, writer, codes, code),
    }
}

// Prints what completes the words of a shell.
fn complete<'a, W: Sink>(
    writer: &mut W,
    pages: &Pages<'_>,
    shell: &'a str,
) -> Result<Finding, Fault<'a>>
    ensures { Completes pages.now shell.entry.now (output_of W.Sink writer.old) (output_of W.Sink writer.new) result }
{
    if shell == "bash" {
        return print(writer, pages.bash.as_bytes());
    }
    if shell == "zsh" {
        return print(writer, pages.zsh.as_bytes());
    }
    if shell == "fish" {
        return print(writer, pages.fish.as_bytes());
    }
    Err(Fault::NoShell { shell })
}

// Does what the words of the command line chose.
fn perform_task<
    'a,
    F: NamedFiles,
    S: FileSystem + Folder + Eprint + AllocGlobal,
    R: Source,
    W: Sink,
    P: ProgressReport,
>(
    files: &F,
    system: &mut S,
    reader: &mut R,
    terminals: Terminals,
    writer: &mut W,
    progress: &mut P,
    pages: &Pages<'_>,
    task: Task<'a>,
) -> Result<Finding, Fault<'a>>
    ensures { DoesTask F.NamedFiles ⟦<F::File as BlockFile>⟧ ⟦<TotalsDisk<F::File> as Disk>⟧ ⟦<MemDisk as Disk>⟧
        files.now S.FileSystem S.Folder ⟦<S::File as BlockFile>⟧ system.old system.new pages.now terminals task.entry
        (streams_of R.Source reader.old W.Sink writer.old) (streams_of R.Source reader.new W.Sink writer.new) result }
{
    let alloc = system.alloc();
    match task {
        Task::Help => print(writer, pages.help.as_bytes()),
        Task::Version => print(writer, pages.version_line.as_bytes()),
        Task::Explain { code, extended } => explain(alloc, writer, pages.codes, code, extended),
        Task::Ask { file, question } => print_file(alloc, files, system, writer, file, question),
        Task::Create { file } => create(system, file),
        Task::Migrate { file } => at_file(file, migrate_file(alloc, files, file)),
        Task::Backup { file, to } => back_up(system, file, to),
        Task::Restore {
            from,
            file,
            replaces,
        } => restore(system, from, file, replaces),
        Task::Diff { file, other } => write_difference(alloc, files, system, writer, file, other),
        Task::Load { text, file } => load(system, text, file),
        Task::Salvage { file, to } => salvage(system, writer, file, to),
        Task::Run {
            scripts,
            profile,
            totals,
            json,
        } => run_paths(
            files,
            system,
            reader,
            terminals.are_both(),
            terminals.is_watched(),
            writer,
            pages.codes,
            pages.lines_help,
            &scripts,
            profile,
            totals,
            json,
        ),
        Task::Test {
            paths,
            profile,
            junit,
            colour,
        } => try_paths(
            files,
            system,
            writer,
            progress,
            terminals.output,
            &paths,
            profile,
            junit,
            colour,
        ),
        Task::Completions { shell } => complete(writer, pages, shell),
        Task::Man => print(writer, pages.man.as_bytes()),
    }
}

// Does what the words of the command line ask for.
fn perform_words<
    'a,
    F: NamedFiles,
    S: FileSystem + Folder + Eprint + AllocGlobal,
    T: AsStr,
    R: Source,
    W: Sink,
    P: ProgressReport,
>(
    files: &F,
    system: &mut S,
    reader: &mut R,
    terminals: Terminals,
    writer: &mut W,
    progress: &mut P,
    pages: &Pages<'a>,
    words: &'a [T],
) -> Result<Finding, Fault<'a>>
    ensures { DoesAsAsked F.NamedFiles ⟦<F::File as BlockFile>⟧ ⟦<TotalsDisk<F::File> as Disk>⟧ ⟦<MemDisk as Disk>⟧
        files.now
        S.FileSystem S.Folder ⟦<S::File as BlockFile>⟧ system.old system.new pages.now terminals
        (map T.text words.entry.now)
        (streams_of R.Source reader.old W.Sink writer.old) (streams_of R.Source reader.new W.Sink writer.new) result }
{
    match choice(system.alloc(), words, pages.version) {
        Ok(task) => perform_task(
            files, system, reader, terminals, writer, progress, pages, task,
        ),
        Err(fault) => Err(Fault::Words(fault)),
    }
}

// Ends with a status, and tells a fault among the errors, if that can be written.
fn end<E: Eprint>(errors: &E, outcome: Result<Finding, Fault<'_>>) -> ExitCode
    ensures { exit_status result ≡ status_of outcome.entry }
{
    let status = status_of(&outcome);
    if let Err(fault) = outcome {
        let _ = errors.eprintln(format_args!("kijolvar: {fault}"));
    }
    ExitCode::from(status)
}

// Why words that couldn't be read ask for nothing.
fn fault_of_unread(fault: ChoiceFault) -> WordsFault
    ensures { result ≡ fault_of_unread fault }
{
    match fault {
        ChoiceFault::NoMemory => WordsFault::NoMemory,
        ChoiceFault::Words(_) => WordsFault::NotUtf8,
    }
}

/// The program, over the files that its words name, the file system that they are in, which also takes a fault, an
/// input and an output, which may be terminals, and what takes how far long work is. It does what the words ask for, if
/// they could be read, and ends with the status of what became of it. docs/reference/tool.md.
pub fn perform<
    F: NamedFiles,
    S: FileSystem + Folder + Eprint + AllocGlobal,
    T: AsStr + Drop,
    R: Source,
    W: Sink,
    P: ProgressReport,
>(
    files: &F,
    system: &mut S,
    reader: &mut R,
    terminals: Terminals,
    writer: &mut W,
    progress: &mut P,
    pages: &Pages<'_>,
    words: Result<Vec<T>, ChoiceFault>,
) -> ExitCode
    ensures { RunsProgram F.NamedFiles ⟦<F::File as BlockFile>⟧ ⟦<TotalsDisk<F::File> as Disk>⟧ ⟦<MemDisk as Disk>⟧
        files.now S.FileSystem S.Folder ⟦<S::File as BlockFile>⟧ system.old system.new pages.now terminals T.text words
        (streams_of R.Source reader.old W.Sink writer.old) (streams_of R.Source reader.new W.Sink writer.new)
        (exit_status result) }
{
    match words {
        Ok(words) => {
            let words = words.as_slice();
            let outcome = perform_words(
                files, system, reader, terminals, writer, progress, pages, words,
            );
            end(system, outcome)
        }
        Err(fault) => end(system, Err(Fault::Words(fault_of_unread(fault)))),
    }
}
