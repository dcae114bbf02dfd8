//! The program `pos_console`. It runs a script of requests to the devices of a shop counter, or works on a totals file.
//!
//! The script comes from standard input, and what each line prints goes to standard output. `perform` does what the
//! words of the command line ask for, over the files that they name, and returns the exit status. `serve_built` runs a
//! script over the built-in profile, `run_over_totals` over a profile and a totals file, and `print_file` prints what
//! such a file holds.
//!
//! Each part is generic over its files, its script and its writers, so a contract says what the program does for each
//! of their answers. docs/reference/console.md says it in words.
#![tactic(auto)]

mod file_closer;
mod files;
mod program;
mod scripts;
mod totals_run;

use pos_program::{Fault, HeldStreams, SystemFiles, read_words};
use pos_run::{AnswerWriter, ScriptReader};
use pos_streams::{ReaderSource, WriterSink};
use program::{end, perform};
use std::process::ExitCode;

fn main(rt: HostRuntime) -> ExitCode {
    let alloc = rt.alloc();
    let _streams = HeldStreams::hold(&rt);
    let Ok(mut writer) = AnswerWriter::new(alloc, WriterSink::new(rt.stdout())) else {
        return end(&rt, Err(Fault::NoMemory));
    };
    let words = read_words(&rt);
    perform(
        alloc,
        &SystemFiles::of(&rt),
        &rt,
        &mut ScriptReader::new(ReaderSource::new(rt.stdin())),
        &mut writer,
        words,
    )
}
