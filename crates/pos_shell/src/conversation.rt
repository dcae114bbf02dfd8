//! Lines that are typed at a terminal: each is run and answered before the next is read.
ghost use Rattle.std.specs.Prelude.{◌≡◌, List, MatchResult, codes};
ghost use Rattle.pos_counter.specs.Counters.{IsCounterSound, IsRun};
ghost use Rattle.pos_counter.specs.Steps.{Request, Response};
ghost use Rattle.pos_run.specs.LineRuns.{session_of};
ghost use Rattle.pos_run.specs.Spares.{AreSparesSound};
ghost use Rattle.pos_script.specs.Lines.{lines_of};
ghost use Rattle.pos_shell.specs.Conversation.{Converses, TakesLine, PrintsExchange, is_quit, line_of};
ghost use Rattle.pos_shell.specs.Outputs.{IsCutOff, IsWritten, output_of, streams_of};
ghost use Rattle.pos_shell.specs.declared.scripts.ScriptsFault.TheVariants.{Write as WriteFails};

use crate::answer_texts::{AnswerStyle, is_command, write_text};
use crate::scripts::{ScriptsFault, print_text};
use pos_counter::Counter;
use pos_disk::Disk;
use pos_run::{Names, Spares};
use pos_script::{LineBuffer, next_line};
use pos_service::{Ends, Peripheral};
use pos_streams::{Sink, Source};
use std::alloc::Global;

// What is before each line that is typed.
const PROMPT: &[u8] = b"> ";

// How many bytes a line has at most, and how many lines are typed.
const MOST: u64 = 1_073_741_824;

// What comes after a line.
#[derive(Clone, Copy)]
enum Next {
    // It was answered, and another one may be asked for.
    Asked,
    // It was answered, if there was one, and the end of what is typed was found.
    Ended,
    // It was `quit`.
    Quit,
}

// What was typed: a line, and whether a line feed ended it. If none did, it is what was left at the end.
#[derive(Drop)]
struct TypedLine {
    text: Vec<u8>,
    is_ended: bool,
}

// Takes a line from a source, up to its line feed, and no byte more.
fn take_line<R: Source>(alloc: Global, reader: &mut R) -> Result<TypedLine, ScriptsFault>
    ensures { TakesLine (R.taken reader.old) (R.taken reader.new) (line_of result) }
{
    let mut text = Vec::new(alloc);
    let mut byte = [0u8; 1];
    for _turn in 0..MOST {
        let Ok(count) = reader.read(&mut byte) else {
            return Err(ScriptsFault::Read);
        };
        if count == 0 {
            return Ok(TypedLine {
                text,
                is_ended: false,
            });
        }
        let Ok(()) = text.push(byte[0]) else {
            return Err(ScriptsFault::NoMemory);
        };
        if byte[0] == b'\n' {
            return Ok(TypedLine {
                text,
                is_ended: true,
            });
        }
    }
    Err(ScriptsFault::Read)
}

// Whether what was typed is the line `quit`.
fn is_quit(text: &[u8]) -> bool
    ensures { result ≡ is_quit (lines_of text.now) }
{
    match next_line(text) {
        Some((line, rest)) => next_line(rest).is_none() && is_command(line, "quit"),
        None => false,
    }
}

// Asks for a line, runs it, and tells what it is answered. Returns what comes after it.
fn exchange<R: Source, W: Sink, D: Disk, P: Peripheral + Ends>(
    alloc: Global,
    style: &AnswerStyle<'_>,
    reader: &mut R,
    writer: &mut W,
    buffer: &mut LineBuffer,
    counter: &mut Counter<D, P>,
    names: &mut Names,
    spares: &mut Spares<P>,
) -> Result<Next, ScriptsFault>
    requires sound { IsCounterSound P.Peripheral counter.old }
    requires spares { AreSparesSound P.Peripheral spares.old }
    ensures told { (steps : List (Request × Response)) × IsRun D.Disk P.Peripheral counter.old steps counter.new
        × PrintsExchange style.now (session_of P.Peripheral names.old spares.old) steps
        (streams_of R.Source reader.old W.Sink writer.old) (streams_of R.Source reader.new W.Sink writer.new) result
        (session_of P.Peripheral names.new spares.new) }
    ensures sound { IsCounterSound P.Peripheral counter.new }
    ensures spares { AreSparesSound P.Peripheral spares.new }
{
    let Ok(()) = write_text(writer, PROMPT) else {
        return Err(ScriptsFault::Write);
    };
    let line = match take_line(alloc, reader) {
        Ok(line) => line,
        Err(fault) => return Err(fault),
    };
    if is_quit(&line.text) {
        return Ok(Next::Quit);
    }
    let told = print_text(
        alloc, style, "", &line.text, writer, buffer, counter, names, spares,
    );
    match told {
        Ok(()) if line.is_ended => Ok(Next::Asked),
        Ok(()) => Ok(Next::Ended),
        Err(fault) => Err(fault),
    }
}

// Ends the terminal's line.
fn end_line<W: Sink>(writer: &mut W) -> Result<(), ScriptsFault>
    ensures { MatchResult result
        (λ _. IsWritten (output_of W.Sink writer.old) (output_of W.Sink writer.new) (codes "\n"))
        (λ why. (why ≡ WriteFails)
        × IsCutOff (output_of W.Sink writer.old) (output_of W.Sink writer.new) (codes "\n")) }
{
    match write_text(writer, b"\n") {
        Ok(()) => Ok(()),
        Err(_) => Err(ScriptsFault::Write),
    }
}

/// Asks for lines, one after another, runs each over a counter before it asks for the next, and tells what it is
/// answered. It goes on to the end of what is typed, or to a line `quit`. A line may be `help`.
///
/// # Errors
///
/// Those of [`ScriptsFault`]. The lines that were answered before stay done.
pub(crate) fn converse<R: Source, W: Sink, D: Disk, P: Peripheral + Ends>(
    alloc: Global,
    style: &AnswerStyle<'_>,
    reader: &mut R,
    writer: &mut W,
    buffer: &mut LineBuffer,
    counter: &mut Counter<D, P>,
    names: &mut Names,
    spares: &mut Spares<P>,
) -> Result<(), ScriptsFault>
    requires sound { IsCounterSound P.Peripheral counter.old }
    requires spares { AreSparesSound P.Peripheral spares.old }
    ensures told { (steps : List (Request × Response)) × IsRun D.Disk P.Peripheral counter.old steps counter.new
        × Converses style.now (session_of P.Peripheral names.old spares.old) steps
        (streams_of R.Source reader.old W.Sink writer.old) (streams_of R.Source reader.new W.Sink writer.new) result
        (session_of P.Peripheral names.new spares.new) }
    ensures sound { IsCounterSound P.Peripheral counter.new }
    ensures spares { AreSparesSound P.Peripheral spares.new }
{
    for _turn in 0..MOST {
        let told = exchange(alloc, style, reader, writer, buffer, counter, names, spares);
        match told {
            Ok(Next::Asked) => {}
            Ok(Next::Ended) => return end_line(writer),
            Ok(Next::Quit) => return Ok(()),
            Err(fault) => return Err(fault),
        }
    }
    Err(ScriptsFault::Read)
}
