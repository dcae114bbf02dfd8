//! Scripts that are run, or tried.
ghost use Rattle.std.specs.Prelude.{◌≡◌, IfOk};
ghost use Rattle.pos_shell.specs.Outputs.{output_of, streams_of};
ghost use Rattle.pos_tool.specs.Texts.{texts};
ghost use Rattle.pos_tool.specs.Scripts.{EndsRun, RunsAsked, form_of, is_awaited, is_typed, run_finding};
ghost use Rattle.pos_tool.specs.Trials.{Chooses, EndsReport, EndsTest, MakesReport, PrintsTrials, WritesTrials};
ghost use Rattle.pos_tool.specs.Trials.{TestsOver, TestsPainted, TestsProfiled, tally_text, trial_finding};

use crate::fault::Fault;
use crate::folder::Folder;
use crate::names::find_scripts;
use crate::whole::{WholeFault, put_report};
use pos_disk::{Disk, MemDisk};
use pos_file::BlockFile;
use pos_profile::Profile;
use pos_program::{FileSystem, NamedFiles, TotalsDisk};
use pos_report::{Code, Finding};
use pos_shell::{
    AnswerFormat, AnswerStyle, ProgressReport, RunFault, Trial, failures, junit, painted,
    profile_at, run, run_typed, tally, try_scripts, write_text,
};
use pos_streams::{Sink, Source};
use std::alloc::{AllocError, Global};
use std::io::Eprint;

// What is answered of a run, to the program.
fn at_run<'a>(answer: Result<(), RunFault<'a>>) -> Result<Finding, Fault<'a>>
    ensures { result ≡ run_finding answer.entry }
{
    match answer {
        Ok(()) => Ok(Finding::Good),
        Err(fault) => Err(Fault::Run(fault)),
    }
}

// How the answers of scripts are told.
fn form_of(json: bool) -> AnswerFormat
    ensures { result ≡ form_of json }
{
    if json {
        return AnswerFormat::Json;
    }
    AnswerFormat::Numbered
}

// Whether the lines of a run are typed: input and output are terminals, no script is named, and a person reads the
// answers.
fn is_typed(scripts: &[&str], json: bool, is_terminal: bool) -> bool
    ensures { result ≡ is_typed scripts.now json is_terminal }
{
    is_terminal && !json && scripts.len() == 1 && scripts[0] == "-"
}

// Whether a person who types lines waits for them to be run: no script is named, so that a terminal is read to its end,
// and the person sees the errors.
fn is_awaited(scripts: &[&str], typed: bool, is_watched: bool) -> bool
    ensures { result ≡ is_awaited scripts.now typed is_watched }
{
    is_watched && !typed && scripts.len() == 1 && scripts[0] == "-"
}

// Tells a person who types lines when they are run, among the errors: no prompt asks for them.
fn tell_waiting<E: Eprint>(errors: &E, awaited: bool) {
    if awaited {
        let _ = errors.eprintln(format_args!(
            "kijolvar: reads lines up to Ctrl-D, and then runs them"
        ));
    }
}

// Runs what is typed, or the scripts at paths, and tells what each line is answered.
fn run_lines<'a, F: NamedFiles, S: FileSystem + AllocGlobal, R: Source, W: Sink>(
    files: &F,
    system: &S,
    reader: &mut R,
    writer: &mut W,
    codes: &[Code<'_>],
    help: &str,
    scripts: &[&'a str],
    profile: Option<&'a str>,
    totals: Option<&'a str>,
    json: bool,
    typed: bool,
) -> Result<(), RunFault<'a>>
    ensures { RunsAsked F.NamedFiles ⟦<F::File as BlockFile>⟧ ⟦<TotalsDisk<F::File> as Disk>⟧ ⟦<MemDisk as Disk>⟧
        files.now S.FileSystem system.now codes.entry help.entry scripts.entry.now profile.entry totals.entry json typed
        (streams_of R.Source reader.old W.Sink writer.old) (streams_of R.Source reader.new W.Sink writer.new) result }
{
    let alloc = system.alloc();
    if typed {
        let form = AnswerFormat::Typed;
        let style = AnswerStyle { codes, help, form };
        return run_typed(alloc, files, &style, profile, totals, reader, writer);
    }
    let form = form_of(json);
    let style = AnswerStyle { codes, help, form };
    run(
        alloc, files, system, &style, scripts, profile, totals, reader, writer,
    )
}

/// Runs the scripts at paths, and prints what each line is answered. Where input and output are terminals it runs what
/// is typed, if no script is named. If a person types a script that is read to its end, it notes so among the errors.
/// docs/reference/tool.md, "run".
///
/// # Errors
///
/// `Run`, with the first file that can't serve or why the run stopped.
pub(crate) fn run_paths<
    'a,
    F: NamedFiles,
    S: FileSystem + Eprint + AllocGlobal,
    R: Source,
    W: Sink,
>(
    files: &F,
    system: &S,
    reader: &mut R,
    is_terminal: bool,
    is_watched: bool,
    writer: &mut W,
    codes: &[Code<'_>],
    help: &str,
    scripts: &[&'a str],
    profile: Option<&'a str>,
    totals: Option<&'a str>,
    json: bool,
) -> Result<Finding, Fault<'a>>
    ensures { EndsRun F.NamedFiles ⟦<F::File as BlockFile>⟧ ⟦<TotalsDisk<F::File> as Disk>⟧ ⟦<MemDisk as Disk>⟧
        files.now S.FileSystem system.now codes.entry help.entry scripts.entry.now profile.entry totals.entry json
        is_terminal (streams_of R.Source reader.old W.Sink writer.old)
        (streams_of R.Source reader.new W.Sink writer.new) result }
{
    let typed = is_typed(scripts, json, is_terminal);
    tell_waiting(system, is_awaited(scripts, typed, is_watched));
    let answer = run_lines(
        files, system, reader, writer, codes, help, scripts, profile, totals, json, typed,
    );
    at_run(answer)
}

// Whether what is printed is painted, by the word after `--color` and whether the output is a terminal.
fn painting<'a>(word: Option<&'a str>, is_terminal: bool) -> Result<bool, Fault<'a>>
    ensures { Chooses word.entry is_terminal result }
{
    let Some(word) = word else {
        return Ok(is_terminal);
    };
    if word == "auto" {
        return Ok(is_terminal);
    }
    if word == "always" {
        return Ok(true);
    }
    if word == "never" {
        return Ok(false);
    }
    Err(Fault::NoColour { word })
}

// What is found where so many scripts don't print what is wanted.
fn trial_finding(failed: usize) -> Finding
    ensures { result ≡ trial_finding failed }
{
    if failed == 0 {
        return Finding::Good;
    }
    Finding::Nothing
}

// What is printed of scripts that were tried.
fn tally_text(alloc: Global, trials: &[Trial<'_>], is_painted: bool) -> Result<Vec<u8>, AllocError>
    ensures { IfOk result (λ text. text.items ≡ tally_text is_painted trials.now) }
{
    let text = tally(alloc, trials)?;
    if is_painted {
        return painted(alloc, &text);
    }
    Ok(text)
}

// Prints what trying scripts found.
fn print_trials<'a, W: Sink>(
    alloc: Global,
    writer: &mut W,
    trials: &[Trial<'_>],
    is_painted: bool,
) -> Result<Finding, Fault<'a>>
    ensures { PrintsTrials is_painted trials.now (output_of W.Sink writer.old) (output_of W.Sink writer.new) result }
{
    let Ok(text) = tally_text(alloc, trials, is_painted) else {
        return Err(Fault::NoMemory);
    };
    match write_text(writer, &text) {
        Ok(()) => Ok(trial_finding(failures(trials))),
        Err(_) => Err(Fault::Write),
    }
}

// What is answered of a report that was to be made, to the program.
fn at_report<'a>(
    path: &'a str,
    finding: Finding,
    answer: Result<(), WholeFault>,
) -> Result<Finding, Fault<'a>>
    ensures { EndsReport path.entry.now finding answer result }
{
    match answer {
        Ok(()) => Ok(finding),
        Err(cause) => Err(Fault::Whole { path, cause }),
    }
}

// Makes the report of scripts that were tried at a path.
fn make_report<'a, S: FileSystem + Folder + AllocGlobal>(
    system: &mut S,
    path: &'a str,
    trials: &[Trial<'_>],
    finding: Finding,
) -> Result<Finding, Fault<'a>>
    ensures { MakesReport S.FileSystem S.Folder ⟦<S::File as BlockFile>⟧ system.old system.new path.entry.now
        trials.now finding result }
{
    let alloc = system.alloc();
    let Ok(text) = junit(alloc, trials) else {
        return Err(Fault::NoMemory);
    };
    at_report(path, finding, put_report(alloc, system, path, &text))
}

// Prints what trying scripts found, and then makes a report of it, if a path for one is given.
fn write_trials<'a, S: FileSystem + Folder + AllocGlobal, W: Sink>(
    system: &mut S,
    writer: &mut W,
    trials: &[Trial<'_>],
    is_painted: bool,
    report: Option<&'a str>,
) -> Result<Finding, Fault<'a>>
    ensures { WritesTrials S.FileSystem S.Folder ⟦<S::File as BlockFile>⟧ system.old system.new is_painted report.entry
        trials.now (output_of W.Sink writer.old) (output_of W.Sink writer.new) result }
{
    let finding = match print_trials(system.alloc(), writer, trials, is_painted) {
        Ok(finding) => finding,
        Err(fault) => return Err(fault),
    };
    match report {
        Some(path) => make_report(system, path, trials, finding),
        None => Ok(finding),
    }
}

// Tries the scripts at paths over a profile, and tells what was found.
fn try_over<'a, S: FileSystem + Folder + AllocGlobal, W: Sink, P: ProgressReport>(
    system: &mut S,
    writer: &mut W,
    progress: &mut P,
    profile: &Profile,
    paths: &[String],
    is_painted: bool,
    report: Option<&'a str>,
) -> Result<Finding, Fault<'a>>
    ensures { TestsOver S.FileSystem S.Folder ⟦<S::File as BlockFile>⟧ system.old system.new ⟦<MemDisk as Disk>⟧
        profile.now (texts paths.now) is_painted report.entry (output_of W.Sink writer.old)
        (output_of W.Sink writer.new) result }
{
    let alloc = system.alloc();
    let tried = try_scripts(alloc, system, profile, paths, progress);
    progress.end();
    match tried {
        Ok(trials) => write_trials(system, writer, &trials, is_painted, report),
        Err(fault) => Err(Fault::Trial(fault)),
    }
}

// Tries the scripts that paths stand for over a profile, and tells what was found.
fn try_profiled<'a, S: FileSystem + Folder + AllocGlobal, W: Sink, P: ProgressReport>(
    system: &mut S,
    writer: &mut W,
    progress: &mut P,
    profile: &Profile,
    paths: &[&'a str],
    is_painted: bool,
    report: Option<&'a str>,
) -> Result<Finding, Fault<'a>>
    ensures { TestsProfiled S.FileSystem S.Folder ⟦<S::File as BlockFile>⟧ system.old system.new ⟦<MemDisk as Disk>⟧
        profile.now paths.entry.now is_painted report.entry (output_of W.Sink writer.old)
        (output_of W.Sink writer.new) result }
{
    match find_scripts(system, paths) {
        Ok(found) => try_over(
            system, writer, progress, profile, &found, is_painted, report,
        ),
        Err(fault) => Err(fault),
    }
}

// Tries the scripts that paths stand for over the profile at a path, the built-in one if none is given.
fn try_painted<'a, F: NamedFiles, S: FileSystem + Folder + AllocGlobal, W: Sink, P: ProgressReport>(
    files: &F,
    system: &mut S,
    writer: &mut W,
    progress: &mut P,
    paths: &[&'a str],
    profile: Option<&'a str>,
    is_painted: bool,
    report: Option<&'a str>,
) -> Result<Finding, Fault<'a>>
    ensures { TestsPainted F.NamedFiles files.now S.FileSystem S.Folder ⟦<S::File as BlockFile>⟧ system.old system.new
        ⟦<MemDisk as Disk>⟧ paths.entry.now profile.entry is_painted report.entry (output_of W.Sink writer.old)
        (output_of W.Sink writer.new) result }
{
    match profile_at(system.alloc(), files, profile) {
        Ok(profile) => try_profiled(
            system, writer, progress, &profile, paths, is_painted, report,
        ),
        Err(fault) => Err(Fault::Run(fault)),
    }
}

/// Tries the scripts that paths stand for over a profile, the built-in one if no path is given. It prints how their
/// answers differ from those that are wanted, in colours if these are chosen, and makes a report of it if a path for
/// one is given. docs/reference/tool.md, "test".
///
/// # Errors
///
/// - `NoColour` if no choice of colour has the word, and `Run` if the profile can't serve.
/// - `Folder` and `NoScripts` for the first folder without scripts, and `Trial` for the first file that can't serve.
/// - `NoMemory` and `Write`, and `Whole` if the report can't be made, which is after the rest.
pub(crate) fn try_paths<
    'a,
    F: NamedFiles,
    S: FileSystem + Folder + AllocGlobal,
    W: Sink,
    P: ProgressReport,
>(
    files: &F,
    system: &mut S,
    writer: &mut W,
    progress: &mut P,
    is_terminal: bool,
    paths: &[&'a str],
    profile: Option<&'a str>,
    report: Option<&'a str>,
    colour: Option<&'a str>,
) -> Result<Finding, Fault<'a>>
    ensures { EndsTest F.NamedFiles files.now S.FileSystem S.Folder ⟦<S::File as BlockFile>⟧ system.old system.new
        ⟦<MemDisk as Disk>⟧ is_terminal paths.entry.now profile.entry report.entry colour.entry
        (output_of W.Sink writer.old) (output_of W.Sink writer.new) result }
{
    match painting(colour, is_terminal) {
        Ok(is_painted) => try_painted(
            files, system, writer, progress, paths, profile, is_painted, report,
        ),
        Err(fault) => Err(fault),
    }
}
