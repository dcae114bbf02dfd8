//! What the words of the command line ask for.
ghost use Rattle.std.specs.Prelude.{◌≡◌, IfErr, codes, map};
ghost use Rattle.std.specs.IoError.{error_kind};
ghost use Rattle.clap.specs.Words.{found_of, rows_of, subcommand_rows_of};
ghost use Rattle.pos_program.specs.Choices.{AreUnread, Asks, Chooses, IsKnown, ReportsUnread, ReportsWhy};
ghost use Rattle.pos_program.specs.Choices.{disk_line, path_in, path_rule, program_line, run_line};
ghost use Rattle.pos_program.specs.CommandLines.{IsLine, IsWord};

use crate::choice_fault::{ChoiceFault, WordsFault};
use crate::command_lines::{CommandLine, begin_line, with_command, with_word};
use clap::error::ErrorKind;
use clap::{Arg, ArgAction, ArgMatches, Command};
use std::alloc::Global;
use std::convert::AsStr;
use std::rt::Env;
use std::{env, io};

/// What the words of the command line ask for. A path is its word, unchanged.
#[derive(Clone, Copy, PartialEq, Eq)]
pub enum Task<'a> {
    /// No words: to run a script over the built-in profile and a formatted disk in memory.
    Demo,
    /// `run --profile FILE --disk FILE`: to run a script over the profile in one file and the disk in another.
    Run { profile: &'a str, disk: &'a str },
    /// `format --disk FILE`: to format the disk in a file.
    Format { disk: &'a str },
    /// `migrate --disk FILE`: to move the totals on the disk in a file to layout 2.
    Migrate { disk: &'a str },
    /// `files --disk FILE`: to print what a totals file holds.
    Files { disk: &'a str },
}

// Returns why the words can't be read.
fn fault_of_unread(cause: &io::Error) -> ChoiceFault
    ensures { ReportsUnread (error_kind cause.now) result }
{
    if cause.kind() == io::ErrorKind::OutOfMemory {
        return ChoiceFault::NoMemory;
    }
    ChoiceFault::Words(WordsFault::NotUtf8)
}

/// Returns the words after the program's name.
///
/// # Errors
///
/// `Words` if one is not UTF-8, and `NoMemory` if memory ran out.
pub fn read_words<R: Env + AllocGlobal>(rt: &R) -> Result<Vec<String>, ChoiceFault>
    ensures { IfErr result AreUnread }
{
    let words = match env::args(rt) {
        Ok(words) => words,
        Err(cause) => return Err(fault_of_unread(&cause)),
    };
    match words.skip(1).collect::<Vec<String>>(rt.alloc()) {
        Ok(words) => Ok(words),
        Err(_) => Err(ChoiceFault::NoMemory),
    }
}

// Returns an option `--NAME FILE` that must be given.
fn path_option<'a>(alloc: Global, name: &'a str) -> Arg<'a>
    ensures { IsWord result (path_rule name.entry.now) }
{
    Arg::new(alloc, name)
        .long(name)
        .required(true)
        .action(ArgAction::Set)
}

// Returns the command line of `run`.
fn run_line<'a>(alloc: Global) -> CommandLine<'a>
    ensures { IsLine result run_line }
{
    let profiled = with_word(begin_line(alloc, "run"), path_option(alloc, "profile"));
    with_word(profiled, path_option(alloc, "disk"))
}

// Returns the command line of a command that has a disk alone.
fn disk_line<'a>(alloc: Global, command: &'a str) -> CommandLine<'a>
    ensures { IsLine result (disk_line command.entry.now) }
{
    with_word(begin_line(alloc, command), path_option(alloc, "disk"))
}

// Returns the command line of the program.
fn program_line<'a>(alloc: Global) -> CommandLine<'a>
    ensures { IsLine result program_line }
{
    let bare = Command::new(alloc, "pos_console").no_binary_name(true);
    let plain = bare.disable_help_subcommand(true);
    let started = plain.subcommand_required(true);
    let runs = with_command(Ok(started), run_line(alloc));
    let formats = with_command(runs, disk_line(alloc, "format"));
    let migrates = with_command(formats, disk_line(alloc, "migrate"));
    with_command(migrates, disk_line(alloc, "files"))
}

// Returns why `clap` gave no matches.
fn fault_of_error(error: clap::Error) -> ChoiceFault
    ensures { ReportsWhy error result }
{
    let kind = error.kind();
    if kind == ErrorKind::OutOfMemory {
        return ChoiceFault::NoMemory;
    }
    if kind == ErrorKind::DisplayHelp {
        return ChoiceFault::Words(WordsFault::Help);
    }
    ChoiceFault::Words(WordsFault::Refused(error))
}

// Returns the path that the matches of a command hold of an option.
fn path_in<'a>(found: &ArgMatches<'a>, option: &str) -> &'a str
    ensures { result.now ≡ path_in option.now (rows_of (found_of found.now)) }
{
    match found.get_str(option) {
        Some(path) => path,
        None => "",
    }
}

// Returns what `clap`'s matches of the words ask for.
fn task_of<'a>(matches: &ArgMatches<'a>) -> Task<'a>
    requires { IsKnown (subcommand_rows_of matches.now) }
    ensures { Asks (subcommand_rows_of matches.now) result }
{
    let Some((command, found)) = matches.subcommand() else {
        unreachable!();
    };
    let disk = path_in(found, "disk");
    if command == "run" {
        let profile = path_in(found, "profile");
        return Task::Run { profile, disk };
    }
    if command == "format" {
        return Task::Format { disk };
    }
    if command == "migrate" {
        return Task::Migrate { disk };
    }
    Task::Files { disk }
}

/// Returns what the words after the program's name ask for, as `clap` reads them: its matches have the command, and the
/// path of each option. Only no words ask for [`Task::Demo`]. docs/reference/console.md, "The program".
///
/// # Errors
///
/// `Words` if `clap` refuses the words or they ask for help, and `NoMemory` if memory ran out.
pub fn choice<'a, S: AsStr>(alloc: Global, words: &'a [S]) -> Result<Task<'a>, ChoiceFault>
    ensures { Chooses (map S.text words.entry.now) result }
{
    if words.is_empty() {
        return Ok(Task::Demo);
    }
    let Ok(line) = program_line(alloc) else {
        return Err(ChoiceFault::NoMemory);
    };
    match line.try_get_matches_from(words) {
        Ok(matches) => Ok(task_of(&matches)),
        Err(error) => Err(fault_of_error(error)),
    }
}
