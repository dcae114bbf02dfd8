//! The program's command line, as `clap` takes it.
ghost use Rattle.std.specs.Prelude.{◌≡◌};
ghost use Rattle.pos_program.specs.CommandLines.{IsLine, IsWord};
ghost use Rattle.pos_tool.specs.Lines.{explain_line, flag_rule, flagged_line, flagged_two_line, free_rule, making_line};
ghost use Rattle.pos_tool.specs.Lines.{place_line, place_rule, places_rule, program_line, reading_line, run_line};
ghost use Rattle.pos_tool.specs.Lines.{some_places_rule, test_line, top_line, two_line, valued_rule};

use clap::{Arg, ArgAction, Command};
use pos_program::{CommandLine, begin_line, with_command, with_word};
use std::alloc::Global;

// A word that has to be there, by its place.
fn place<'a>(alloc: Global, name: &'a str) -> Arg<'a>
    ensures { IsWord result (place_rule name.entry.now) }
{
    Arg::new(alloc, name).required(true).action(ArgAction::Set)
}

// A word that may be there, by its place.
fn free_place<'a>(alloc: Global, name: &'a str) -> Arg<'a>
    ensures { IsWord result (free_rule name.entry.now) }
{
    Arg::new(alloc, name).action(ArgAction::Set)
}

// An option `--NAME`.
fn flag<'a>(alloc: Global, name: &'a str) -> Arg<'a>
    ensures { IsWord result (flag_rule name.entry.now) }
{
    Arg::new(alloc, name).long(name).action(ArgAction::SetTrue)
}

// An option `--NAME WORD`.
fn valued<'a>(alloc: Global, name: &'a str) -> Arg<'a>
    ensures { IsWord result (valued_rule name.entry.now) }
{
    Arg::new(alloc, name).long(name).action(ArgAction::Set)
}

// The words after a command, of which there may be any number; `-` stands for none.
fn places<'a>(alloc: Global, name: &'a str) -> Arg<'a>
    ensures { IsWord result (places_rule name.entry.now) }
{
    let any = Arg::new(alloc, name).num_args(1..);
    any.default_value("-").action(ArgAction::Append)
}

// The words after a command, of which there must be one.
fn some_places<'a>(alloc: Global, name: &'a str) -> Arg<'a>
    ensures { IsWord result (some_places_rule name.entry.now) }
{
    let any = Arg::new(alloc, name).num_args(1..);
    any.required(true).action(ArgAction::Append)
}

// The command line of `run`.
fn run_line<'a>(alloc: Global) -> CommandLine<'a>
    ensures { IsLine result run_line }
{
    let scripts = with_word(begin_line(alloc, "run"), places(alloc, "SCRIPT"));
    let profiled = with_word(scripts, valued(alloc, "profile"));
    let totalled = with_word(profiled, valued(alloc, "totals"));
    with_word(totalled, flag(alloc, "json"))
}

// The command line of `test`.
fn test_line<'a>(alloc: Global) -> CommandLine<'a>
    ensures { IsLine result test_line }
{
    let paths = with_word(begin_line(alloc, "test"), some_places(alloc, "PATH"));
    let profiled = with_word(paths, valued(alloc, "profile"));
    let reported = with_word(profiled, valued(alloc, "junit"));
    with_word(reported, valued(alloc, "color"))
}

// The command line of a command with one word after it.
fn place_line<'a>(alloc: Global, name: &'a str, word: &'a str) -> CommandLine<'a>
    ensures { IsLine result (place_line name.entry.now word.entry.now) }
{
    with_word(begin_line(alloc, name), place(alloc, word))
}

// The command line of `explain`.
fn explain_line<'a>(alloc: Global) -> CommandLine<'a>
    ensures { IsLine result explain_line }
{
    with_word(
        place_line(alloc, "explain", "CODE"),
        free_place(alloc, "EXTENDED"),
    )
}

// The command line of a command with a file after it, and an option.
fn flagged_line<'a>(alloc: Global, name: &'a str, option: &'a str) -> CommandLine<'a>
    ensures { IsLine result (flagged_line name.entry.now option.entry.now) }
{
    with_word(place_line(alloc, name, "FILE"), flag(alloc, option))
}

// The command line of a command with two words after it.
fn two_line<'a>(alloc: Global, name: &'a str, first: &'a str, second: &'a str) -> CommandLine<'a>
    ensures { IsLine result (two_line name.entry.now first.entry.now second.entry.now) }
{
    with_word(place_line(alloc, name, first), place(alloc, second))
}

// The command line of a command with two words after it, and an option.
fn flagged_two_line<'a>(
    alloc: Global,
    name: &'a str,
    first: &'a str,
    second: &'a str,
    option: &'a str,
) -> CommandLine<'a>
    ensures { IsLine result
        (flagged_two_line name.entry.now first.entry.now second.entry.now option.entry.now) }
{
    with_word(two_line(alloc, name, first, second), flag(alloc, option))
}

// The program's, with the commands that have no word after them.
fn top_line<'a>(alloc: Global, version: &'a str) -> CommandLine<'a>
    ensures { IsLine result top_line }
{
    let named = Command::new(alloc, "kijolvar").no_binary_name(true);
    let bare = named.disable_help_subcommand(true).version(version);
    let helps = with_command(Ok(bare), begin_line(alloc, "help"));
    with_command(helps, begin_line(alloc, "version"))
}

// The program's, with those that only read, too.
fn reading_line<'a>(alloc: Global, version: &'a str) -> CommandLine<'a>
    ensures { IsLine result reading_line }
{
    let explains = with_command(top_line(alloc, version), explain_line(alloc));
    let checks = with_command(explains, flagged_line(alloc, "check", "quiet"));
    let lists = with_command(checks, flagged_line(alloc, "files", "json"));
    let prints = with_command(lists, flagged_two_line(alloc, "cat", "FILE", "NAME", "hex"));
    let dumps = with_command(prints, place_line(alloc, "dump", "FILE"));
    with_command(dumps, two_line(alloc, "diff", "FILE", "OTHER"))
}

// The program's, with those that make files, too.
fn making_line<'a>(alloc: Global, version: &'a str) -> CommandLine<'a>
    ensures { IsLine result making_line }
{
    let creates = with_command(
        reading_line(alloc, version),
        place_line(alloc, "create", "FILE"),
    );
    let migrates = with_command(creates, place_line(alloc, "migrate", "FILE"));
    let backs_up = with_command(migrates, two_line(alloc, "backup", "FILE", "TO"));
    let restores = with_command(
        backs_up,
        flagged_two_line(alloc, "restore", "FROM", "FILE", "replace"),
    );
    let loads = with_command(restores, two_line(alloc, "load", "TEXT", "FILE"));
    with_command(loads, two_line(alloc, "salvage", "FILE", "TO"))
}

/// Returns the command line of the program: its version is this one.
///
/// # Errors
///
/// Memory ran out.
pub(crate) fn program_line<'a>(alloc: Global, version: &'a str) -> CommandLine<'a>
    ensures { IsLine result program_line }
{
    let runs = with_command(making_line(alloc, version), run_line(alloc));
    let tests = with_command(runs, test_line(alloc));
    let completes = with_command(tests, place_line(alloc, "completions", "SHELL"));
    with_command(completes, begin_line(alloc, "man"))
}
