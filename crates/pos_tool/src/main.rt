//! The program `kijolvar`: it checks totals files, prints what they hold, makes, moves and copies them, and runs
//! scripts (docs/reference/tool.md).
//!
//! A command that only reads writes nothing. The program's words are read by `clap`; what it does for them, and the
//! status that it ends with, is `perform`'s contract.
#![tactic(auto)]

mod answers;
mod commands;
mod copies;
mod fault;
mod folder;
mod help;
mod line;
mod meter;
mod names;
mod new_totals;
mod pages;
mod program;
mod scripts;
mod whole;

use help::{HELP, LINES_HELP, VERSION, VERSION_LINE};
use meter::Meter;
use pages::{BASH, FISH, MAN, ZSH};
use pos_program::{HeldStreams, SystemFiles, read_words};
use pos_report::standard_codes;
use pos_streams::{ReaderSource, WriterSink};
use program::{Pages, Terminals, perform};
use std::io::IsTerminal;
use std::process::ExitCode;

fn main(rt: HostRuntime) -> ExitCode {
    let _streams = HeldStreams::hold(&rt);
    let terminals = Terminals {
        input: rt.stdin().is_terminal(),
        output: rt.stdout().is_terminal(),
        errors: rt.stderr().is_terminal(),
    };
    let mut reader = ReaderSource::new(rt.stdin());
    let mut writer = WriterSink::new(rt.stdout());
    let words = read_words(&rt);
    let mut system = rt;
    perform(
        &SystemFiles::of(&rt),
        &mut system,
        &mut reader,
        terminals,
        &mut writer,
        &mut Meter::new(&rt, terminals.errors),
        &Pages {
            help: HELP,
            version: VERSION,
            version_line: VERSION_LINE,
            codes: standard_codes(),
            lines_help: LINES_HELP,
            man: MAN,
            bash: BASH,
            zsh: ZSH,
            fish: FISH,
        },
        words,
    )
}
