//! Scripts that are run one after another over one counter, and what is told of them.
ghost use Rattle.std.specs.Prelude.{List};
ghost use Rattle.pos_counter.specs.Counters.{IsCounterSound, IsRun};
ghost use Rattle.pos_counter.specs.Steps.{Request, Response};
ghost use Rattle.pos_run.specs.LineRuns.{session_of};
ghost use Rattle.pos_run.specs.Spares.{AreSparesSound};
ghost use Rattle.pos_shell.specs.Outputs.{output_of};
ghost use Rattle.pos_shell.specs.Scripts.{PrintsScripts, PrintsText};

use crate::answer_texts::{AnswerStyle, told, write_text};
use pos_counter::Counter;
use pos_disk::Disk;
use pos_run::{Names, Spares, run_given_lines};
use pos_script::LineBuffer;
use pos_service::{Ends, Peripheral};
use pos_streams::{MemorySink, Sink};
use std::alloc::Global;
use thiserror::Error;

/// Why scripts weren't run to their end, or not told to it. The lines that were run before stay done.
#[derive(Clone, Copy, Debug, PartialEq, Eq, Error)]
pub enum ScriptsFault {
    /// There was no memory.
    #[error("no memory")]
    NoMemory,
    /// The output can't be written.
    #[error("the output can't be written")]
    Write,
    /// What is typed can't be read, or has too many lines, or one that is too long.
    #[error("what is typed can't be read")]
    Read,
}

/// A script: its name, as it is told, and its text.
#[derive(Drop)]
pub struct Script<'a> {
    /// The name.
    pub name: &'a str,
    /// The text.
    pub text: Vec<u8>,
}

/// Runs a script over a counter, and tells what its lines are answered.
///
/// # Errors
///
/// `NoMemory`: a front of its lines was run, and nothing is told. `Write`: all of its lines were run.
pub(crate) fn print_text<W: Sink, D: Disk, P: Peripheral + Ends>(
    alloc: Global,
    style: &AnswerStyle<'_>,
    name: &str,
    text: &[u8],
    writer: &mut W,
    buffer: &mut LineBuffer,
    counter: &mut Counter<D, P>,
    names: &mut Names,
    spares: &mut Spares<P>,
) -> Result<(), ScriptsFault>
    requires sound { IsCounterSound P.Peripheral counter.old }
    requires spares { AreSparesSound P.Peripheral spares.old }
    ensures told { (steps : List (Request × Response)) × IsRun D.Disk P.Peripheral counter.old steps counter.new
        × PrintsText style.now name.now text.now (session_of P.Peripheral names.old spares.old) steps
        (output_of W.Sink writer.old) (output_of W.Sink writer.new) result
        (session_of P.Peripheral names.new spares.new) }
    ensures sound { IsCounterSound P.Peripheral counter.new }
    ensures spares { AreSparesSound P.Peripheral spares.new }
{
    let mut answers = MemorySink::new(alloc);
    let Ok(()) = run_given_lines(alloc, text, buffer, &mut answers, counter, names, spares) else {
        return Err(ScriptsFault::NoMemory);
    };
    let Ok(said) = told(alloc, style, name, text, answers.as_slice()) else {
        return Err(ScriptsFault::NoMemory);
    };
    match write_text(writer, &said) {
        Ok(()) => Ok(()),
        Err(_) => Err(ScriptsFault::Write),
    }
}

/// Runs scripts in order over a counter, and tells what their lines are answered.
///
/// # Errors
///
/// `NoMemory` and `Write`: later scripts weren't run.
pub(crate) fn print_scripts<W: Sink, D: Disk, P: Peripheral + Ends>(
    alloc: Global,
    style: &AnswerStyle<'_>,
    scripts: &[Script<'_>],
    writer: &mut W,
    buffer: &mut LineBuffer,
    counter: &mut Counter<D, P>,
    names: &mut Names,
    spares: &mut Spares<P>,
) -> Result<(), ScriptsFault>
    requires sound { IsCounterSound P.Peripheral counter.old }
    requires spares { AreSparesSound P.Peripheral spares.old }
    ensures told { (steps : List (Request × Response)) × IsRun D.Disk P.Peripheral counter.old steps counter.new
        × PrintsScripts style.now scripts.now (session_of P.Peripheral names.old spares.old) steps
        (output_of W.Sink writer.old) (output_of W.Sink writer.new) result
        (session_of P.Peripheral names.new spares.new) }
    ensures sound { IsCounterSound P.Peripheral counter.new }
    ensures spares { AreSparesSound P.Peripheral spares.new }
{
    for script in scripts {
        let done = print_text(
            alloc,
            style,
            script.name,
            &script.text,
            writer,
            buffer,
            counter,
            names,
            spares,
        );
        if let Err(fault) = done {
            return Err(fault);
        }
    }
    Ok(())
}
