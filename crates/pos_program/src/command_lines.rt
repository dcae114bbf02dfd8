//! Command lines as `clap` takes them. Each step takes what was made so far; `AllocError` says that memory ran out.
ghost use Rattle.std.specs.Prelude.{IsOk};
ghost use Rattle.clap.specs.Words.{App, Rule, new_app, with_rule, with_subcommand};
ghost use Rattle.pos_program.specs.CommandLines.{IsLine, IsWord};

use clap::{Arg, Command};
use std::alloc::{AllocError, Global};

/// A command line that was made, or no memory for it.
pub type CommandLine<'a> = Result<Command<'a>, AllocError>;

/// Returns the command line of a command with nothing after its name. It never fails.
pub fn begin_line<'a>(alloc: Global, name: &'a str) -> CommandLine<'a>
    ensures line { IsLine result (new_app name.entry.now) }
    ensures made { IsOk result }
{
    Ok(Command::new(alloc, name))
}

/// Returns a command line with one more word or option.
///
/// # Errors
///
/// The line wasn't made, or memory ran out.
pub fn with_word<'a>(line: CommandLine<'a>, word: Arg<'a>) -> CommandLine<'a>
    ensures { (app : App) (rule : Rule) → IsLine line.entry app → IsWord word.entry rule
        → IsLine result (with_rule app rule) }
{
    line?.arg(word)
}

/// Returns a command line with one more command.
///
/// # Errors
///
/// One of the two wasn't made, or memory ran out.
pub fn with_command<'a>(line: CommandLine<'a>, command: CommandLine<'a>) -> CommandLine<'a>
    ensures { (app more : App) → IsLine line.entry app → IsLine command.entry more
        → IsLine result (with_subcommand app more.top) }
{
    line?.subcommand(command?)
}
