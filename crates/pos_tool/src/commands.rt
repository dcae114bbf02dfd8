//! What the words of the command line ask for.
ghost use Rattle.std.specs.Prelude.{◌≡◌, IfOk, map, option_map};
ghost use Rattle.clap.specs.Words.{first_of, found_of, rows_of, subcommand_rows_of};
ghost use Rattle.pos_tool.specs.Commands.{Asks, AsksFound, AsksOf, Chooses, MakesOf, PrintsOf, RunsOf};
ghost use Rattle.pos_tool.specs.Commands.{PrintsWhy, is_given, word_in, words_in};

use crate::fault::WordsFault;
use crate::line::program_line;
use clap::ArgMatches;
use clap::error::ErrorKind;
use pos_report::Question;
use std::alloc::{AllocError, Global};
use std::convert::AsStr;

/// What the words of the command line ask for. A path is its word as it stands.
#[derive(Drop)]
pub enum Task<'a> {
    /// No words, `help`, `--help` or `-h`: to print the help.
    Help,
    /// `version`, `--version` or `-V`: to print the version.
    Version,
    /// `explain CODE [EXTENDED]`: to print what a code means, and the extended code after it.
    Explain {
        /// The code's number or name.
        code: &'a str,
        /// The extended code's number or name, if one is given.
        extended: Option<&'a str>,
    },
    /// `check FILE`, `files FILE`, `dump FILE` and `cat FILE NAME`: to answer a question about a totals file.
    Ask {
        /// The totals file.
        file: &'a str,
        /// The question.
        question: Question<'a>,
    },
    /// `create FILE`: to make totals without files, over no byte but 0.
    Create {
        /// The totals file.
        file: &'a str,
    },
    /// `migrate FILE`: to move the totals in a file to layout 2.
    Migrate {
        /// The totals file.
        file: &'a str,
    },
    /// `backup FILE TO`: to copy a totals file, which a till may be using.
    Backup {
        /// The totals file.
        file: &'a str,
        /// The copy.
        to: &'a str,
    },
    /// `restore FROM FILE`: to put a copy back.
    Restore {
        /// The copy.
        from: &'a str,
        /// The totals file.
        file: &'a str,
        /// Whether it may take the place of a file.
        replaces: bool,
    },
    /// `diff FILE OTHER`: to print how the files of two totals differ.
    Diff {
        /// A totals file.
        file: &'a str,
        /// Another one.
        other: &'a str,
    },
    /// `load TEXT FILE`: to make a totals file of a dump.
    Load {
        /// The dump.
        text: &'a str,
        /// The totals file.
        file: &'a str,
    },
    /// `salvage FILE TO`: to make sound totals of damaged ones.
    Salvage {
        /// The damaged totals file.
        file: &'a str,
        /// The sound one.
        to: &'a str,
    },
    /// `run SCRIPT ..`: to run scripts, and print what each line is answered.
    Run {
        /// The scripts.
        scripts: Vec<&'a str>,
        /// The profile, if it isn't the built-in one.
        profile: Option<&'a str>,
        /// The totals file, if they aren't in memory.
        totals: Option<&'a str>,
        /// Whether as JSON.
        json: bool,
    },
    /// `test PATH ..`: to try scripts, and print how their answers differ from those that are wanted.
    Test {
        /// The scripts, and folders of scripts.
        paths: Vec<&'a str>,
        /// The profile, if it isn't the built-in one.
        profile: Option<&'a str>,
        /// The file to make of what is found, if one is asked for.
        junit: Option<&'a str>,
        /// When what is printed is painted.
        colour: Option<&'a str>,
    },
    /// `completions SHELL`: to print what completes the words of a shell.
    Completions {
        /// The shell.
        shell: &'a str,
    },
    /// `man`: to print the man page.
    Man,
}

// What `clap` says where it gives no matches: it was asked for help or the version, or it refuses the words.
fn task_of_error<'a>(error: clap::Error) -> Result<Task<'a>, WordsFault>
    ensures { PrintsWhy error result }
{
    let kind = error.kind();
    if kind == ErrorKind::OutOfMemory {
        return Err(WordsFault::NoMemory);
    }
    if kind == ErrorKind::DisplayHelp {
        return Ok(Task::Help);
    }
    if kind == ErrorKind::DisplayVersion {
        return Ok(Task::Version);
    }
    Err(WordsFault::Refused(error))
}

// The word that the matches of a command hold of a place.
fn word_in<'a>(found: &ArgMatches<'a>, place: &str) -> &'a str
    ensures { result.now ≡ word_in place.now (rows_of (found_of found.now)) }
{
    match found.get_str(place) {
        Some(word) => word,
        None => "",
    }
}

// Whether the matches of a command hold an option.
fn is_given(found: &ArgMatches<'_>, option: &str) -> bool
    ensures { result ≡ is_given option.now (rows_of (found_of found.now)) }
{
    word_in(found, option) == "true"
}

// The word after an option in the matches of a command, or at a place that may be empty, if it was given.
fn option_in<'a>(found: &ArgMatches<'a>, option: &str) -> Option<&'a str>
    ensures { option_map (λ word. word.now) result ≡ first_of option.now (rows_of (found_of found.now)) }
{
    found.get_str(option)
}

// The words that the matches of a command hold of a place.
fn words_in<'a>(
    alloc: Global,
    found: &ArgMatches<'a>,
    place: &str,
) -> Result<Vec<&'a str>, AllocError>
    ensures { IfOk result (λ words. map (λ word. word.now) words.items
        ≡ words_in place.now (rows_of (found_of found.now))) }
{
    match found.get_strs(place) {
        Some(words) => Vec::from_slice(alloc, words),
        None => Ok(Vec::new(alloc)),
    }
}

// What the matches of a command ask of a totals file, if it asks something.
fn question_of<'a>(command: &str, found: &ArgMatches<'a>) -> Option<Question<'a>>
    ensures { AsksOf command.now (rows_of (found_of found.now)) result }
{
    if command == "check" {
        let quiet = is_given(found, "quiet");
        return Some(Question::Check { quiet });
    }
    if command == "files" {
        let json = is_given(found, "json");
        return Some(Question::Files { json });
    }
    if command == "dump" {
        return Some(Question::Dump);
    }
    if command == "cat" {
        let name = word_in(found, "NAME");
        let hex = is_given(found, "hex");
        return Some(Question::Cat { name, hex });
    }
    None
}

// What the matches of a command ask to be made, if something is.
fn making_of<'a>(command: &str, found: &ArgMatches<'a>) -> Option<Task<'a>>
    ensures { MakesOf command.now (rows_of (found_of found.now)) result }
{
    let file = word_in(found, "FILE");
    let to = word_in(found, "TO");
    if command == "create" {
        return Some(Task::Create { file });
    }
    if command == "migrate" {
        return Some(Task::Migrate { file });
    }
    if command == "backup" {
        return Some(Task::Backup { file, to });
    }
    if command == "restore" {
        let from = word_in(found, "FROM");
        let replaces = is_given(found, "replace");
        return Some(Task::Restore {
            from,
            file,
            replaces,
        });
    }
    if command == "load" {
        let text = word_in(found, "TEXT");
        return Some(Task::Load { text, file });
    }
    if command == "salvage" {
        return Some(Task::Salvage { file, to });
    }
    None
}

// What the matches of a command ask to be run, if something is.
fn running_of<'a>(
    alloc: Global,
    command: &str,
    found: &ArgMatches<'a>,
) -> Result<Option<Task<'a>>, AllocError>
    ensures { IfOk result (RunsOf command.now (rows_of (found_of found.now))) }
{
    if command == "run" {
        let scripts = words_in(alloc, found, "SCRIPT")?;
        let profile = option_in(found, "profile");
        let totals = option_in(found, "totals");
        let json = is_given(found, "json");
        return Ok(Some(Task::Run {
            scripts,
            profile,
            totals,
            json,
        }));
    }
    if command == "test" {
        let paths = words_in(alloc, found, "PATH")?;
        let profile = option_in(found, "profile");
        let junit = option_in(found, "junit");
        let colour = option_in(found, "color");
        return Ok(Some(Task::Test {
            paths,
            profile,
            junit,
            colour,
        }));
    }
    Ok(None)
}

// What the matches of a command ask to be printed; the help, if it is no other command.
fn printing_of<'a>(command: &str, found: &ArgMatches<'a>) -> Task<'a>
    ensures { PrintsOf command.now (rows_of (found_of found.now)) result }
{
    if command == "version" {
        return Task::Version;
    }
    if command == "explain" {
        let code = word_in(found, "CODE");
        let extended = option_in(found, "EXTENDED");
        return Task::Explain { code, extended };
    }
    if command == "completions" {
        let shell = word_in(found, "SHELL");
        return Task::Completions { shell };
    }
    if command == "man" {
        return Task::Man;
    }
    let file = word_in(found, "FILE");
    if command == "diff" {
        let other = word_in(found, "OTHER");
        return Task::Diff { file, other };
    }
    match question_of(command, found) {
        Some(question) => Task::Ask { file, question },
        None => Task::Help,
    }
}

// What the matches of a command ask for.
fn found_task<'a>(
    alloc: Global,
    command: &str,
    found: &ArgMatches<'a>,
) -> Result<Task<'a>, AllocError>
    ensures { IfOk result (AsksFound command.now (rows_of (found_of found.now))) }
{
    match making_of(command, found) {
        Some(task) => Ok(task),
        None => match running_of(alloc, command, found)? {
            Some(task) => Ok(task),
            None => Ok(printing_of(command, found)),
        },
    }
}

// What `clap`'s matches of the words ask for.
fn task_of<'a>(alloc: Global, matches: &ArgMatches<'a>) -> Result<Task<'a>, AllocError>
    ensures { IfOk result (Asks (subcommand_rows_of matches.now)) }
{
    let Some((command, found)) = matches.subcommand() else {
        return Ok(Task::Help);
    };
    found_task(alloc, command, found)
}

/// Returns what the words after the program's name ask for, as `clap` reads them: its matches have the command, and
/// the words and options after it. docs/reference/tool.md, "Commands".
///
/// # Errors
///
/// `Refused` if `clap` refuses the words; `NoMemory` if there was none to read them.
pub(crate) fn choice<'a, S: AsStr>(
    alloc: Global,
    words: &'a [S],
    version: &'a str,
) -> Result<Task<'a>, WordsFault>
    ensures { Chooses (map S.text words.entry.now) result }
{
    let Ok(line) = program_line(alloc, version) else {
        return Err(WordsFault::NoMemory);
    };
    match line.try_get_matches_from(words) {
        Ok(matches) => {
            let Ok(task) = task_of(alloc, &matches) else {
                return Err(WordsFault::NoMemory);
            };
            Ok(task)
        }
        Err(error) => task_of_error(error),
    }
}
