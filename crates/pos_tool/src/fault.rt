//! Why the program doesn't do what it was asked, and the status that it ends with.
ghost use Rattle.std.specs.Prelude.{◌≡◌};
ghost use Rattle.pos_tool.specs.Faults.{file_status, finding_status, load_status, profile_status, run_status, status};
ghost use Rattle.pos_tool.specs.Faults.{status_of, survey_status, told_status, trial_status, whole_status};
ghost use Rattle.pos_tool.specs.Faults.{words_status};
ghost use Rattle.pos_tool.specs.Surveys.{EndsAt};

use crate::whole::WholeFault;
use pos_program::{FileFault, FirstParagraph, OneLine, ProfileFileFault};
use pos_report::{Finding, LoadFault};
use pos_shell::{RunFault, ScriptsFault, TrialFault};
use pos_survey::{SurveyFault, words_of};
use std::fmt::Write;
use std::{fmt, io};

/// Why the words ask for nothing that the program does.
#[derive(Drop)]
pub enum WordsFault {
    /// `clap` refuses them, and says why.
    Refused(clap::Error),
    /// One of them is no UTF-8.
    NotUtf8,
    /// There was no memory to read them.
    NoMemory,
}

/// Why the program doesn't do what it was asked. It is told in two lines: what is wrong, and a hint.
#[derive(Drop)]
pub enum Fault<'a> {
    /// The words ask for nothing.
    Words(WordsFault),
    /// A totals file can't serve.
    File {
        /// Its path, as its word stood.
        path: &'a str,
        /// Why.
        cause: FileFault,
    },
    /// The bytes of a totals file are no totals, or damaged ones.
    Totals {
        /// Its path, as its word stood.
        path: &'a str,
        /// Why.
        cause: SurveyFault,
    },
    /// Nothing can be had of the bytes of a totals file.
    Unsalvaged {
        /// Its path, as its word stood.
        path: &'a str,
        /// Why.
        cause: SurveyFault,
    },
    /// A file can't be made.
    Whole {
        /// Its path, as its word stood.
        path: &'a str,
        /// Why.
        cause: WholeFault,
    },
    /// A file that is to be made is there, and has other bytes than 0, but no whole totals.
    Taken {
        /// Its path, as its word stood.
        path: &'a str,
    },
    /// A text isn't loaded.
    Load {
        /// Its path, as its word stood.
        path: &'a str,
        /// Why.
        cause: LoadFault,
    },
    /// No file of this name is among the totals.
    NoFile {
        /// The path of the totals file, as its word stood.
        path: &'a str,
        /// The name.
        name: &'a str,
    },
    /// No code has this number or name.
    NoCode {
        /// The word.
        code: &'a str,
    },
    /// No result code has this number or name, before an extended code.
    NoResultCode {
        /// The word.
        code: &'a str,
    },
    /// No extended code has this number or name.
    NoExtendedCode {
        /// The word.
        code: &'a str,
    },
    /// No completions are there for a shell.
    NoShell {
        /// The shell.
        shell: &'a str,
    },
    /// No choice of colour has this word.
    NoColour {
        /// The word.
        word: &'a str,
    },
    /// A file that scripts need can't serve.
    Run(RunFault<'a>),
    /// A script can't be tried.
    Trial(TrialFault),
    /// A folder can't be listed.
    Folder {
        /// Its path, as its word stood.
        path: &'a str,
        /// Why.
        cause: io::Error,
    },
    /// No script is in a folder.
    NoScripts {
        /// Its path, as its word stood.
        path: &'a str,
    },
    /// The output can't be written.
    Write,
    /// There was no memory.
    NoMemory,
}

// The status of what was found.
fn finding_status(finding: Finding) -> u8
    ensures { result ≡ finding_status finding }
{
    match finding {
        Finding::Good => 0,
        Finding::Nothing => 1,
        Finding::Damaged => 2,
    }
}

// The status of a fault of the words.
fn words_status(fault: &WordsFault) -> u8
    ensures { result ≡ words_status fault.now }
{
    match fault {
        WordsFault::NoMemory => 6,
        _ => 3,
    }
}

// The status of a fault of a totals file.
fn file_status(cause: &FileFault) -> u8
    ensures { result ≡ file_status cause.now }
{
    match cause {
        FileFault::Unformatted | FileFault::Short => 1,
        FileFault::Damaged | FileFault::Broken { .. } => 2,
        FileFault::NoMemory | FileFault::NoMemoryToMove => 6,
        _ => 4,
    }
}

// The status of a fault of the bytes of a totals file.
fn survey_status(cause: &SurveyFault) -> u8
    ensures { result ≡ survey_status cause.now }
{
    match cause {
        SurveyFault::TooSmall | SurveyFault::Unformatted => 1,
        SurveyFault::Damaged(_, _) => 2,
        SurveyFault::NoMemory => 6,
    }
}

// The status of a fault of a file that was to be made.
fn whole_status(cause: &WholeFault) -> u8
    ensures { result ≡ whole_status cause.now }
{
    match cause {
        WholeFault::NoMemory => 6,
        _ => 4,
    }
}

// The status of a fault of a text that was to be loaded.
fn load_status(cause: &LoadFault) -> u8
    ensures { result ≡ load_status cause.now }
{
    match cause {
        LoadFault::NoMemory => 6,
        LoadFault::NoDump => 1,
    }
}

// The status of a fault of a profile.
fn profile_status(cause: &ProfileFileFault) -> u8
    ensures { result ≡ profile_status cause.now }
{
    match cause {
        ProfileFileFault::NoMemory => 6,
        _ => 4,
    }
}

// The status of a run that stopped.
fn told_status(cause: &ScriptsFault) -> u8
    ensures { result ≡ told_status cause.now }
{
    match cause {
        ScriptsFault::NoMemory => 6,
        ScriptsFault::Write => 5,
        ScriptsFault::Read => 4,
    }
}

// The status of a fault of a run.
fn run_status(fault: &RunFault<'_>) -> u8
    ensures { result ≡ run_status fault.now }
{
    match fault {
        RunFault::Script { .. } | RunFault::Input => 4,
        RunFault::Profile { cause, .. } => profile_status(cause),
        RunFault::Totals { cause, .. } => file_status(cause),
        RunFault::Stopped(cause) => told_status(cause),
    }
}

// The status of a script that can't be tried.
fn trial_status(fault: &TrialFault) -> u8
    ensures { result ≡ trial_status fault.now }
{
    match fault {
        TrialFault::Script { .. } | TrialFault::Wanted { .. } => 4,
        TrialFault::NoMemory => 6,
    }
}

impl Fault<'_> {
    /// Returns the status that the program ends with. docs/reference/tool.md, "Statuses".
    pub fn status(&self) -> u8
        ensures { result ≡ status self.now }
    {
        match self {
            Fault::Words(fault) => words_status(fault),
            Fault::File { cause, .. } => file_status(cause),
            Fault::Totals { cause, .. } | Fault::Unsalvaged { cause, .. } => survey_status(cause),
            Fault::Whole { cause, .. } => whole_status(cause),
            Fault::Load { cause, .. } => load_status(cause),
            Fault::Taken { .. } => 4,
            Fault::NoFile { .. } | Fault::NoCode { .. } | Fault::NoShell { .. } => 1,
            Fault::NoResultCode { .. } | Fault::NoExtendedCode { .. } => 1,
            Fault::NoScripts { .. } => 1,
            Fault::NoColour { .. } => 3,
            Fault::Run(fault) => run_status(fault),
            Fault::Trial(fault) => trial_status(fault),
            Fault::Folder { .. } => 4,
            Fault::Write => 5,
            Fault::NoMemory => 6,
        }
    }
}

/// Returns the status that the program ends with, by what was found or why nothing was.
pub fn status_of(outcome: &Result<Finding, Fault<'_>>) -> u8
    ensures { result ≡ status_of outcome.now }
{
    match outcome {
        Ok(finding) => finding_status(*finding),
        Err(fault) => fault.status(),
    }
}

/// Returns what is answered of the totals file at a path, to the program.
pub(crate) fn at_file<'a>(
    path: &'a str,
    answer: Result<(), FileFault>,
) -> Result<Finding, Fault<'a>>
    ensures { EndsAt path.entry.now answer result }
{
    match answer {
        Ok(()) => Ok(Finding::Good),
        Err(cause) => Err(Fault::File { path, cause }),
    }
}

// What to do about a fault of the words.
fn hint_of_words(fault: &WordsFault) -> &'static str {
    match fault {
        WordsFault::Refused(_) | WordsFault::NotUtf8 => "`kijolvar help` lists the commands",
        WordsFault::NoMemory => "free memory, and try again",
    }
}

// What to do about a fault of a totals file.
fn hint_of_file(cause: &FileFault) -> &'static str {
    match cause {
        FileFault::InUse =>
            "a till that runs locks its totals file: stop it first (`fuser -v FILE` lists who has it)",
        FileFault::Unsteady =>
            "`backup` works beside a till that runs, if it doesn't write all the time",
        FileFault::Open(_) | FileFault::Unreadable(_) | FileFault::Folder(_) => {
            "check the path, who may read and write it, and if its file system is read-only"
        }
        FileFault::Unformatted => {
            "is it the right file? If it had totals, restore a copy of it, or salvage what is left"
        }
        FileFault::Short => "if it was cut off, restore a copy of it, or salvage what is left",
        FileFault::Damaged | FileFault::Broken { .. } => {
            "`kijolvar check FILE` names the rule that is broken"
        }
        FileFault::Formatted => "`kijolvar check FILE` says if it is sound",
        FileFault::Moved => "nothing is left to do",
        FileFault::NotSynced =>
            "if the device is read-only, copy FILE to another one and take the copy; else check the device",
        FileFault::NotRead => {
            "copy it by dd if=FILE of=COPY bs=512 conv=noerror,sync, and salvage COPY, or restore an older copy"
        }
        FileFault::NoMemory | FileFault::NoMemoryToMove => "free memory, and try again",
        FileFault::Move => "restart the machine, check the device, and move it again",
        _ => "check the device that it is on, and the space that is free there",
    }
}

// What to do about a fault of the bytes of a totals file.
fn hint_of_totals(cause: &SurveyFault) -> &'static str {
    match cause {
        SurveyFault::TooSmall => {
            "is it the right file? If it was cut off, restore a copy of it, or salvage what is left"
        }
        SurveyFault::Unformatted => "is it the right file? Restore a copy if it had totals",
        SurveyFault::Damaged(_, _) =>
            "`kijolvar salvage FILE TO` makes a sound file of what can be had of it",
        SurveyFault::NoMemory => "free memory, and try again",
    }
}

// What to do about bytes of which nothing can be had.
fn hint_of_unsalvaged(cause: &SurveyFault) -> &'static str {
    match cause {
        SurveyFault::Unformatted => {
            "`kijolvar check FILE` says if it was damaged or has no totals; restore a copy, or load a dump"
        }
        _ => hint_of_totals(cause),
    }
}

// What to do about a fault of a file that was to be made.
fn hint_of_whole(cause: &WholeFault) -> &'static str {
    match cause {
        WholeFault::NoMemory => "free memory, and try again",
        WholeFault::Part(_) =>
            "check the folder; remove the .part file if no other command is making it",
        WholeFault::NoFile => "give the path of a file, and not of a link to it",
        WholeFault::NoReport => "give the path of a report, or one that is free",
        WholeFault::Unwritten => "check the device, and the space that is free there",
        WholeFault::Link(_) => "if a file is there, give another path; `restore` has --replace",
        WholeFault::Aside(_) => {
            "if a .old file is there: move it away first; the disk must have hard links"
        }
        WholeFault::Rights(_) => "run it as the old file's owner, or as root",
        WholeFault::Left(_) => "remove the .part file",
        WholeFault::Unsynced(_) =>
            "check the device, and sync it; until then a crash may take the file away",
    }
}

// What to do about a fault of a run.
fn hint_of_run(fault: &RunFault<'_>) -> &'static str {
    match fault {
        RunFault::Script { .. } => "check the path, and who may read it; `-` is standard input",
        RunFault::Input => "check where the input comes from; nothing was run",
        RunFault::Profile { .. } =>
            "docs/reference/profile.md has each key; without --profile the built-in one serves",
        RunFault::Totals { cause, .. } => hint_of_file(cause),
        RunFault::Stopped(ScriptsFault::NoMemory) =>
            "free memory; lines may have been run: check the totals before you run them again",
        RunFault::Stopped(ScriptsFault::Write) =>
            "check where the output goes; lines may have been run: check the totals before you run them again",
        RunFault::Stopped(ScriptsFault::Read) =>
            "put the lines into a script; the lines before are done",
    }
}

// What to do about a script that can't be tried.
fn hint_of_trial(fault: &TrialFault) -> &'static str {
    match fault {
        TrialFault::Script { .. } => "check the path, and who may read it",
        TrialFault::Wanted { .. } => "the answers that are wanted of SCRIPT are in SCRIPT.stdout",
        TrialFault::NoMemory => "free memory, and try again",
    }
}

impl Fault<'_> {
    // Returns what to do about it.
    fn hint(&self) -> &'static str {
        match self {
            Fault::Words(fault) => hint_of_words(fault),
            Fault::File { cause, .. } => hint_of_file(cause),
            Fault::Totals { cause, .. } => hint_of_totals(cause),
            Fault::Unsalvaged { cause, .. } => hint_of_unsalvaged(cause),
            Fault::Whole { cause, .. } => hint_of_whole(cause),
            Fault::Taken { .. } => {
                "if `create` was cut off, remove FILE and make it again; if its totals were cut off, salvage them"
            }
            Fault::Load { .. } => "`kijolvar dump FILE` prints such a text",
            Fault::NoFile { .. } => "`kijolvar files FILE` lists the files in it",
            Fault::NoCode { .. } => "give a number as 106, or a name as E_ILLEGAL",
            Fault::NoResultCode { .. } | Fault::NoExtendedCode { .. } => {
                "give a result code and its extended code, as 114 203; an extended code of 0 says nothing"
            }
            Fault::NoShell { .. } => "there are some for bash, zsh and fish",
            Fault::NoColour { .. } => "there are auto, always and never",
            Fault::Run(fault) => hint_of_run(fault),
            Fault::Trial(fault) => hint_of_trial(fault),
            Fault::Folder { .. } => "check who may read it; its names have to be UTF-8",
            Fault::NoScripts { .. } => "the answers that are wanted of SCRIPT are in SCRIPT.stdout",
            Fault::Write => "check where the output goes, and the space that is free there",
            Fault::NoMemory => "free memory, and try again",
        }
    }
}

impl fmt::Display for WordsFault {
    fn fmt<W: fmt::Write>(&self, f: &mut fmt::Formatter<W>) -> fmt::Result {
        match self {
            WordsFault::Refused(error) => {
                let mut paragraph = FirstParagraph::over(f);
                write!(paragraph, "{error}")
            }
            WordsFault::NotUtf8 => write!(f, "error: a word is not UTF-8"),
            WordsFault::NoMemory => write!(f, "no memory"),
        }
    }
}

// Why the bytes of a totals file are no sound totals, in words.
#[derive(Drop)]
struct Cause<'a>(&'a SurveyFault);

impl fmt::Display for Cause<'_> {
    fn fmt<W: fmt::Write>(&self, f: &mut fmt::Formatter<W>) -> fmt::Result {
        match self.0 {
            SurveyFault::Damaged(at, rule) => {
                let words = words_of(*rule);
                write!(f, "its totals are damaged at byte {at}: {words}")
            }
            SurveyFault::TooSmall => write!(
                f,
                "is shorter than a totals file, which has 327680 bytes"
            ),
            SurveyFault::Unformatted => write!(f, "isn't formatted"),
            SurveyFault::NoMemory => write!(f, "no memory"),
        }
    }
}

// Writes why nothing can be had of bytes.
fn tell_unsalvaged<W: Write>(path: &str, cause: &SurveyFault, line: &mut W) -> fmt::Result {
    if let SurveyFault::Unformatted = cause {
        return write!(line, "{path}: no image is left, so nothing can be salvaged");
    }
    let cause = Cause(cause);
    write!(line, "{path}: {cause}")
}

// Writes why scripts can't be run.
fn tell_run<W: Write>(fault: &RunFault<'_>, line: &mut W) -> fmt::Result {
    match fault {
        RunFault::Script { path, cause } => write!(line, "{path}: can't be read: {cause}"),
        RunFault::Input => write!(line, "standard input can't be read"),
        RunFault::Profile { path, cause } => write!(line, "{path}: {cause}"),
        RunFault::Totals { path, cause } => write!(line, "{path}: {cause}"),
        RunFault::Stopped(cause) => write!(line, "{cause}"),
    }
}

// Writes why a script can't be tried.
fn tell_trial<W: Write>(fault: &TrialFault, line: &mut W) -> fmt::Result {
    match fault {
        TrialFault::Script { path, cause } => write!(line, "{path}: can't be read: {cause}"),
        TrialFault::Wanted { path, cause } => write!(line, "{path}.stdout: can't be read: {cause}"),
        TrialFault::NoMemory => write!(line, "no memory"),
    }
}

impl Fault<'_> {
    // Writes what is wrong.
    fn tell<W: Write>(&self, line: &mut W) -> fmt::Result {
        match self {
            Fault::Words(fault) => write!(line, "{fault}"),
            Fault::File { path, cause } => write!(line, "{path}: {cause}"),
            Fault::Totals { path, cause } => {
                let cause = Cause(cause);
                write!(line, "{path}: {cause}")
            }
            Fault::Unsalvaged { path, cause } => tell_unsalvaged(path, cause, line),
            Fault::Whole { path, cause } => write!(line, "{path}: {cause}"),
            Fault::Taken { path } => write!(
                line,
                "{path}: is there, and has no whole totals: choose another name"
            ),
            Fault::Load { path, cause } => write!(line, "{path}: {cause}"),
            Fault::NoFile { path, name } => write!(line, "{path}: no file has the name {name}"),
            Fault::NoCode { code } => write!(line, "no code is {code}"),
            Fault::NoResultCode { code } => write!(line, "no result code is {code}"),
            Fault::NoExtendedCode { code } => write!(line, "no extended code is {code}"),
            Fault::NoShell { shell } => write!(line, "no completions for {shell}"),
            Fault::NoColour { word } => write!(line, "no choice of colour is {word}"),
            Fault::Run(fault) => tell_run(fault, line),
            Fault::Trial(fault) => tell_trial(fault, line),
            Fault::Folder { path, cause } => write!(line, "{path}: can't be listed: {cause}"),
            Fault::NoScripts { path } => write!(line, "{path}: no script is in this folder"),
            Fault::Write => write!(line, "the output can't be written"),
            Fault::NoMemory => write!(line, "no memory"),
        }
    }
}

impl fmt::Display for Fault<'_> {
    fn fmt<W: fmt::Write>(&self, f: &mut fmt::Formatter<W>) -> fmt::Result {
        self.tell(&mut OneLine::over(f))?;
        let hint = self.hint();
        write!(f, "\nhint: {hint}")
    }
}
