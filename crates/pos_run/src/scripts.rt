//! Runs of a script.
ghost use Rattle.std.specs.Prelude.{[]};
ghost use Rattle.pos_counter.specs.Counters.{IsCounterSound, IsRun};
ghost use Rattle.pos_run.specs.LineRuns.{RunsEnd, RunsLast, RunsPiece, RunsPrinted, RunsWholeScript, session_of};
ghost use Rattle.pos_run.specs.Names.{ControlNames};
ghost use Rattle.pos_run.specs.Runs.{RunsScript};
ghost use Rattle.pos_script.specs.LineBuffers.{StandsFor};
ghost use Rattle.pos_run.specs.Spares.{AreSparesSound, spares_in};
ghost use Rattle.pos_run.specs.Sessions.{IsSessionSound, KeepsSession, session_in};
ghost use Rattle.pos_run.specs.Streams.{streams_of, writing_of};
ghost use Rattle.pos_run.specs.Transcript.{begun_session, session_with};

use crate::answers::AnswerWriter;
use crate::lines::run_words;
use crate::names::Names;
use crate::script_reader::ScriptReader;
use crate::session::Session;
use crate::spares::Spares;
use pos_counter::Counter;
use pos_disk::Disk;
use pos_script::{Line, LineBuffer, LineReply, print_reply};
use pos_service::{Ends, Peripheral};
use pos_streams::{Sink, Source, WriteFault};
use std::alloc::Global;
use thiserror::Error;

/// Why a run of a script stopped.
#[derive(Clone, Copy, Debug, PartialEq, Eq, Error)]
pub enum RunFault {
    /// A read failed or was interrupted, or the script was read as often as it may be.
    #[error("the script can't be read")]
    Read,
    /// A write or a flush failed or was interrupted, or a write took nothing.
    #[error("the answers can't be written")]
    Write,
    /// There is no memory for the room that lines are read into.
    #[error("no memory")]
    NoMemory,
}

/// How many bytes are read at once, at most.
const PIECE: usize = 65_536;

/// Runs a line, and writes what it prints.
///
/// # Errors
///
/// [`WriteFault`] if a write failed.
#[inline(always)]
fn run_and_print<W: Sink, D: Disk, P: Peripheral + Ends>(
    alloc: Global,
    line: Line<'_>,
    writer: &mut W,
    session: &mut Session<'_, D, P>,
) -> Result<(), WriteFault>
    requires sound { IsSessionSound P.Peripheral session.old }
    ensures line { RunsPrinted D.Disk P.Peripheral session.old.counter.now (session_in P.Peripheral session.old)
        line.entry (W.given writer.old) (W.given writer.new) result
        (session_in P.Peripheral session.new) session.new.counter.now }
    ensures session { KeepsSession P.Peripheral session.old session.new }
{
    match line {
        Line::Quiet => Ok(()),
        Line::Misspelled => print_reply(writer, LineReply::BadLine),
        Line::Words(words) => run_words(alloc, writer, session, words),
    }
}

/// Runs the lines that a piece ends, each before a later one, and writes what each prints.
///
/// # Errors
///
/// [`WriteFault`] if a write failed.
#[tactic(auto, using(crate::proofs::SessionLemmas::keeps_on))]
pub(crate) fn run_piece<W: Sink, D: Disk, P: Peripheral + Ends>(
    alloc: Global,
    piece: &[u8],
    buffer: &mut LineBuffer,
    writer: &mut W,
    session: &mut Session<'_, D, P>,
) -> Result<(), WriteFault>
    requires sound { IsSessionSound P.Peripheral session.old }
    ensures piece { RunsPiece D.Disk P.Peripheral session.old.counter.now (session_in P.Peripheral session.old)
        buffer.old piece.now (W.given writer.old) (W.given writer.new) result buffer.new
        (session_in P.Peripheral session.new) session.new.counter.now }
    ensures session { KeepsSession P.Peripheral session.old session.new }
{
    let mut left = piece;
    while let Some((ended, rest)) = buffer.feed(left) {
        let line = buffer.ended_line(ended);
        let Ok(()) = run_and_print(alloc, line, writer, session) else {
            return Err(WriteFault);
        };
        buffer.clear();
        left = rest;
    }
    Ok(())
}

/// Runs the last line of a script, which its end ends, if there is one, and writes what it prints.
///
/// # Errors
///
/// [`WriteFault`] if a write failed.
pub(crate) fn run_last<W: Sink, D: Disk, P: Peripheral + Ends>(
    alloc: Global,
    buffer: &LineBuffer,
    writer: &mut W,
    session: &mut Session<'_, D, P>,
) -> Result<(), WriteFault>
    requires sound { IsSessionSound P.Peripheral session.old }
    ensures last { RunsLast D.Disk P.Peripheral session.old.counter.now (session_in P.Peripheral session.old)
        buffer.now (W.given writer.old) (W.given writer.new) result
        (session_in P.Peripheral session.new) session.new.counter.now }
    ensures session { KeepsSession P.Peripheral session.old session.new }
{
    if buffer.is_empty() {
        return Ok(());
    }
    run_and_print(alloc, buffer.line(), writer, session)
}

/// Runs the last line of a script, if there is one, and flushes all that was printed.
///
/// # Errors
///
/// [`WriteFault`] if a write or the flush failed.
fn run_end<W: Sink, D: Disk, P: Peripheral + Ends>(
    alloc: Global,
    buffer: &LineBuffer,
    writer: &mut AnswerWriter<W>,
    session: &mut Session<'_, D, P>,
) -> Result<(), WriteFault>
    requires sound { IsSessionSound P.Peripheral session.old }
    ensures end { RunsEnd D.Disk P.Peripheral session.old.counter.now (session_in P.Peripheral session.old)
        buffer.now (writing_of W.Sink writer.old) (writing_of W.Sink writer.new) result
        (session_in P.Peripheral session.new) session.new.counter.now }
    ensures session { KeepsSession P.Peripheral session.old session.new }
{
    let Ok(()) = run_last(alloc, buffer, writer, session) else {
        return Err(WriteFault);
    };
    writer.flush()
}

/// Runs the lines of a script from the first to the last. All that they print is flushed before each read, and
/// at the end.
///
/// # Errors
///
/// As of `run`, but for `NoMemory`.
#[tactic(auto, using(crate::proofs::SessionLemmas::keeps_on))]
fn run_script<R: Source, W: Sink, D: Disk, P: Peripheral + Ends>(
    alloc: Global,
    buffer: &mut LineBuffer,
    reader: &mut ScriptReader<R>,
    writer: &mut AnswerWriter<W>,
    session: &mut Session<'_, D, P>,
) -> Result<(), RunFault>
    requires empty { StandsFor buffer.old [] }
    requires sound { IsSessionSound P.Peripheral session.old }
    ensures script { RunsScript (IsRun D.Disk P.Peripheral) session.old.counter.now
        (session_in P.Peripheral session.old)
        (streams_of R.Source reader.old reader.new W.Sink writer.old writer.new) result
        (session_in P.Peripheral session.new) session.new.counter.now }
    ensures session { KeepsSession P.Peripheral session.old session.new }
{
    let mut piece = [0u8; PIECE];
    loop {
        let Ok(()) = writer.flush() else {
            return Err(RunFault::Write);
        };
        let Ok(count) = reader.read(writer, &mut piece) else {
            return Err(RunFault::Read);
        };
        if count == 0 {
            return match run_end(alloc, buffer, writer, session) {
                Ok(()) => Ok(()),
                Err(WriteFault) => Err(RunFault::Write),
            };
        }
        let Ok(()) = run_piece(alloc, &piece[..count], buffer, writer, session) else {
            return Err(RunFault::Write);
        };
    }
}

/// Runs the lines of a script over a counter, with the names of its controls and its spares.
///
/// # Errors
///
/// As of `run`.
fn run_named<R: Source, W: Sink, D: Disk, P: Peripheral + Ends>(
    alloc: Global,
    buffer: &mut LineBuffer,
    reader: &mut ScriptReader<R>,
    writer: &mut AnswerWriter<W>,
    counter: &mut Counter<D, P>,
    names: &mut Names,
    spares: &mut Spares<P>,
) -> Result<(), RunFault>
    requires empty { StandsFor buffer.old [] }
    requires sound { IsCounterSound P.Peripheral counter.old }
    requires spares { AreSparesSound P.Peripheral spares.old }
    ensures script { RunsScript (IsRun D.Disk P.Peripheral) counter.old
        (session_of P.Peripheral names.old spares.old)
        (streams_of R.Source reader.old reader.new W.Sink writer.old writer.new) result
        (session_of P.Peripheral names.new spares.new) counter.new }
    ensures sound { IsCounterSound P.Peripheral counter.new }
    ensures spares { AreSparesSound P.Peripheral spares.new }
{
    let mut session = Session {
        counter,
        names,
        spares,
    };
    run_script(alloc, buffer, reader, writer, &mut session)
}

/// Runs the lines of a script in order, and writes what each prints (docs/reference/console.md), over a counter
/// of any peripherals and any disk. One line is kept at a time, in room that is made before anything is read.
///
/// Each line is run before more is read, and all that the lines before print is flushed by then. However the
/// run ends, a crash at any moment leaves what it may leave inside a step of the lines that were run.
///
/// # Errors
///
/// - `Read`: a read failed, or there were as many as there may be. The lines that a line feed ended were run.
/// - `Write`: a write or a flush failed. The line at which it failed and all before it were run, and no later
///   one.
/// - `NoMemory`: memory ran out, and nothing was read.
pub fn run<R: Source, W: Sink, D: Disk, P: Peripheral + Ends>(
    alloc: Global,
    reader: &mut ScriptReader<R>,
    writer: &mut AnswerWriter<W>,
    counter: &mut Counter<D, P>,
    spares: &mut Spares<P>,
) -> Result<(), RunFault>
    requires sound { IsCounterSound P.Peripheral counter.old }
    requires spares { AreSparesSound P.Peripheral spares.old }
    ensures script { (names : ControlNames) × RunsWholeScript D.Disk P.Peripheral counter.old
        (begun_session (spares_in P.Peripheral spares.old))
        (streams_of R.Source reader.old reader.new W.Sink writer.old writer.new) result
        (session_with names (spares_in P.Peripheral spares.new)) counter.new }
    ensures sound { IsCounterSound P.Peripheral counter.new }
    ensures spares { AreSparesSound P.Peripheral spares.new }
{
    let Ok(mut buffer) = LineBuffer::new(alloc) else {
        return Err(RunFault::NoMemory);
    };
    let mut names = Names::new(alloc);
    run_named(
        alloc,
        &mut buffer,
        reader,
        writer,
        counter,
        &mut names,
        spares,
    )
}
