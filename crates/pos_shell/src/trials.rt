//! Scripts that are tried: what they print is compared with what they should print.
ghost use Rattle.std.specs.Prelude.{◌≡◌, ◌≤◌, ◌++◌, IfErr, IfOk, List, OnOk, codes, flat_map, length, map, string_bytes};
ghost use Rattle.pos_counter.specs.Counters.{IsCounterSound, IsRun};
ghost use Rattle.pos_counter.specs.Steps.{Request, Response};
ghost use Rattle.pos_program.specs.Answers.{bytes_of};
ghost use Rattle.pos_run.specs.Names.{ControlNames};
ghost use Rattle.pos_run.specs.Spares.{AreSparesSound, spares_in};
ghost use Rattle.pos_run.specs.Transcript.{LinesPrint, begun_session, session_with};
ghost use Rattle.pos_script.specs.Lines.{lines_of};
ghost use Rattle.pos_streams.specs.Transfers.{given_to};
ghost use Rattle.pos_shell.specs.Scripts.{RunsFront};
ghost use Rattle.pos_shell.specs.Trials.{Compares, IsAnswered, ReadsText, ReadsWanted, TriesEach, TriesScript, failures};
ghost use Rattle.pos_shell.specs.Trials.{tally, trial_text, trials_of};

use crate::differences::{differences, put_parts};
use itoa::Buffer;
use pos_counter::Counter;
use pos_disk::{Disk, MemDisk};
use pos_image::new_disk;
use pos_profile::Profile;
use pos_program::FileSystem;
use pos_run::{AsSimulated, Names, Spares, end_counter, run_given_lines, simulate_profile};
use pos_script::LineBuffer;
use pos_service::{Ends, Peripheral};
use pos_streams::MemorySink;
use std::alloc::{AllocError, Global};
use std::io;

/// Why a script can't be tried.
#[derive(Drop)]
pub enum TrialFault {
    /// It can't be read.
    Script {
        /// Its path.
        path: String,
        /// Why.
        cause: io::Error,
    },
    /// The answers that are wanted of it can't be read.
    Wanted {
        /// The path of the script.
        path: String,
        /// Why.
        cause: io::Error,
    },
    /// There was no memory.
    NoMemory,
}

/// A script that was tried.
#[derive(Drop)]
pub struct Trial<'a> {
    /// Its path.
    pub path: &'a str,
    /// The lines whose answers differ from those that are wanted. It is empty if none do.
    pub differences: Vec<u8>,
}

/// What is told of long work while it goes on.
pub trait ProgressReport {
    /// Takes that so many parts of the work are done, of all.
    fn report(&mut self, done: usize, all: usize);

    /// Takes that the work ended.
    fn end(&mut self);
}

// What the lines of a script are answered, over a counter whose controls have no names yet. If memory ran out, a front
// of them was run.
fn answer_all<D: Disk, P: Peripheral + Ends>(
    alloc: Global,
    script: &[u8],
    counter: &mut Counter<D, P>,
    spares: &mut Spares<P>,
) -> Result<MemorySink, TrialFault>
    requires sound { IsCounterSound P.Peripheral counter.old }
    requires spares { AreSparesSound P.Peripheral spares.old }
    ensures answers { IfOk result (λ answers. (steps : List (Request × Response)) × (names : ControlNames)
        × IsRun D.Disk P.Peripheral counter.old steps counter.new
        × LinesPrint (begun_session (spares_in P.Peripheral spares.old)) (lines_of script.now) steps
        (given_to answers).bytes (session_with names (spares_in P.Peripheral spares.new))) }
    ensures stopped { IfErr result (λ _. (steps : List (Request × Response)) × (names : ControlNames)
        × IsRun D.Disk P.Peripheral counter.old steps counter.new
        × RunsFront (begun_session (spares_in P.Peripheral spares.old)) (lines_of script.now) steps
        (session_with names (spares_in P.Peripheral spares.new))) }
    ensures sound { IsCounterSound P.Peripheral counter.new }
    ensures spares { AreSparesSound P.Peripheral spares.new }
{
    let Ok(mut buffer) = LineBuffer::new(alloc) else {
        return Err(TrialFault::NoMemory);
    };
    let mut names = Names::new(alloc);
    let mut answers = MemorySink::new(alloc);
    let done = run_given_lines(
        alloc,
        script,
        &mut buffer,
        &mut answers,
        counter,
        &mut names,
        spares,
    );
    let Ok(()) = done else {
        return Err(TrialFault::NoMemory);
    };
    Ok(answers)
}

// What the lines of a script are answered, over a new counter of a profile's devices and totals in memory.
fn answers_of(alloc: Global, profile: &Profile, script: &[u8]) -> Result<MemorySink, TrialFault>
    ensures { IfOk result (λ answers. IsAnswered ⟦<MemDisk as Disk>⟧ profile.now script.now (given_to answers).bytes) }
{
    let Ok(disk) = new_disk(alloc) else {
        return Err(TrialFault::NoMemory);
    };
    let (mut counter, mut spares) = match simulate_profile(alloc, profile, disk, &AsSimulated) {
        Ok(made) => made,
        Err(_) => return Err(TrialFault::NoMemory),
    };
    let answers = answer_all(alloc, script, &mut counter, &mut spares);
    let _disk = end_counter(counter);
    spares.park_all();
    answers
}

// The path of the answers that are wanted of a script.
fn wanted_path(alloc: Global, path: &str) -> Result<String, AllocError>
    ensures { IfOk result (λ wanted. string_bytes wanted ≡ path.now ++ codes ".stdout") }
{
    let mut wanted = String::from_str(alloc, path)?;
    wanted.push_str(".stdout")?;
    Ok(wanted)
}

// Reads the answers that are wanted of the script at a path.
fn read_wanted<S: FileSystem>(alloc: Global, system: &S, path: &str) -> Result<Vec<u8>, TrialFault>
    ensures { ReadsWanted S.FileSystem system.now path.now (bytes_of result) }
{
    let Ok(beside) = wanted_path(alloc, path) else {
        return Err(TrialFault::NoMemory);
    };
    match system.read(&beside) {
        Ok(wanted) => Ok(wanted),
        Err(cause) => match String::from_str(alloc, path) {
            Ok(path) => Err(TrialFault::Wanted { path, cause }),
            Err(_) => Err(TrialFault::NoMemory),
        },
    }
}

// Reads the script at a path.
fn read_script<S: FileSystem>(alloc: Global, system: &S, path: &str) -> Result<Vec<u8>, TrialFault>
    ensures { ReadsText S.FileSystem system.now path.now (bytes_of result) }
{
    match system.read(path) {
        Ok(script) => Ok(script),
        Err(cause) => match String::from_str(alloc, path) {
            Ok(path) => Err(TrialFault::Script { path, cause }),
            Err(_) => Err(TrialFault::NoMemory),
        },
    }
}

// How what a script prints differs from what is wanted.
fn compare(
    alloc: Global,
    profile: &Profile,
    name: &str,
    script: &[u8],
    wanted: &[u8],
) -> Result<Vec<u8>, TrialFault>
    ensures { IfOk result (λ text. Compares ⟦<MemDisk as Disk>⟧ profile.now name.now script.now wanted.now text.items) }
{
    let answers = match answers_of(alloc, profile, script) {
        Ok(answers) => answers,
        Err(fault) => return Err(fault),
    };
    match differences(alloc, name, script, wanted, answers.as_slice()) {
        Ok(text) => Ok(text),
        Err(_) => Err(TrialFault::NoMemory),
    }
}

// How what the script at a path prints differs from what is wanted.
fn try_script<S: FileSystem>(
    alloc: Global,
    system: &S,
    profile: &Profile,
    path: &str,
) -> Result<Vec<u8>, TrialFault>
    ensures { TriesScript S.FileSystem system.now ⟦<MemDisk as Disk>⟧ profile.now path.now (bytes_of result) }
{
    let script = match read_script(alloc, system, path) {
        Ok(script) => script,
        Err(fault) => return Err(fault),
    };
    let wanted = match read_wanted(alloc, system, path) {
        Ok(wanted) => wanted,
        Err(fault) => return Err(fault),
    };
    match compare(alloc, profile, path, script.as_slice(), wanted.as_slice()) {
        Ok(text) => Ok(text),
        Err(_) => Err(TrialFault::NoMemory),
    }
}

/// Tries the scripts at paths, in order, each over a new counter of the profile's devices and totals in memory. A
/// script has the answers that are wanted of it beside it, at its path with `.stdout` at its end.
/// docs/reference/tool.md, "test".
///
/// # Errors
///
/// `Script` or `Wanted` for the first file that can't be read, and `NoMemory`.
pub fn try_scripts<'a, S: FileSystem, P: ProgressReport>(
    alloc: Global,
    system: &S,
    profile: &Profile,
    paths: &'a [String],
    progress: &mut P,
) -> Result<Vec<Trial<'a>>, TrialFault>
    ensures { TriesEach S.FileSystem system.now ⟦<MemDisk as Disk>⟧ profile.now
        (map (λ path. string_bytes path) paths.entry.now) (trials_of result) }
{
    let mut trials = Vec::new(alloc);
    for name in paths {
        progress.report(trials.len(), paths.len());
        let path = name.as_str();
        match try_script(alloc, system, profile, path) {
            Ok(differences) => {
                let Ok(()) = trials.push(Trial { path, differences }) else {
                    return Err(TrialFault::NoMemory);
                };
            }
            Err(fault) => return Err(fault),
        }
    }
    Ok(trials)
}

/// Returns how many scripts don't print what is wanted.
pub fn failures(trials: &[Trial<'_>]) -> usize
    ensures value { result ≡ failures trials.now }
    ensures most { result ≤ length trials.now }
{
    let mut failed = 0;
    for trial in trials {
        if !trial.differences.is_empty() {
            failed += 1;
        }
    }
    failed
}

// Puts what trying a script found at the end of a text.
fn put_trial(text: &mut Vec<u8>, trial: &Trial<'_>) -> Result<(), AllocError>
    ensures { OnOk result (text.new.items ≡ text.old.items ++ trial_text trial.now) }
{
    text.extend_from_slice(&trial.differences)?;
    if trial.differences.is_empty() {
        text.extend_from_slice(b"ok ")?;
    } else {
        text.extend_from_slice(b"failed ")?;
    }
    text.extend_from_slice(trial.path.as_bytes())?;
    text.extend_from_slice(b"\n")
}

// Puts what trying scripts found at the end of a text.
fn put_trials(text: &mut Vec<u8>, trials: &[Trial<'_>]) -> Result<(), AllocError>
    ensures { OnOk result (text.new.items ≡ text.old.items ++ flat_map trial_text trials.now) }
{
    for trial in trials {
        put_trial(text, trial)?;
    }
    Ok(())
}

/// Returns what is printed of scripts that were tried: what was found of each, and how many print what is wanted, and
/// don't.
///
/// # Errors
///
/// [`AllocError`] if memory ran out.
pub fn tally(alloc: Global, trials: &[Trial<'_>]) -> Result<Vec<u8>, AllocError>
    ensures { IfOk result (λ text. text.items ≡ tally trials.now) }
{
    let failed = failures(trials);
    let passed = trials.len() - failed;
    let mut passes = Buffer::new();
    let mut fails = Buffer::new();
    let passes = passes.format(passed as u64).as_bytes();
    let fails = fails.format(failed as u64).as_bytes();
    let mut text = Vec::new(alloc);
    put_trials(&mut text, trials)?;
    put_parts(&mut text, passes, b" passed, ", fails)?;
    text.extend_from_slice(b" failed\n")?;
    Ok(text)
}
