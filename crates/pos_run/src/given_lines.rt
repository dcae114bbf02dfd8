//! Lines that a caller has whole.
ghost use Rattle.pos_counter.specs.Counters.{IsCounterSound};
ghost use Rattle.pos_run.specs.LineRuns.{RunsGivenLines, session_of};
ghost use Rattle.pos_run.specs.Sessions.{IsSessionSound, KeepsSession, session_in};
ghost use Rattle.pos_run.specs.Spares.{AreSparesSound};
ghost use Rattle.pos_script.specs.Lines.{lines_of};

use crate::names::Names;
use crate::scripts::{run_last, run_piece};
use crate::session::Session;
use crate::spares::Spares;
use pos_counter::Counter;
use pos_disk::Disk;
use pos_script::LineBuffer;
use pos_service::{Ends, Peripheral};
use pos_streams::{Sink, WriteFault};
use std::alloc::Global;

/// Runs the lines of a text in a session, and writes what each prints.
///
/// # Errors
///
/// [`WriteFault`] if a write failed.
#[tactic(auto, using(crate::proofs::SessionLemmas::keeps_on))]
fn run_given_text<W: Sink, D: Disk, P: Peripheral + Ends>(
    alloc: Global,
    lines: &[u8],
    buffer: &mut LineBuffer,
    writer: &mut W,
    session: &mut Session<'_, D, P>,
) -> Result<(), WriteFault>
    requires sound { IsSessionSound P.Peripheral session.old }
    ensures lines { RunsGivenLines D.Disk P.Peripheral session.old.counter.now (session_in P.Peripheral session.old)
        (lines_of lines.now) (W.given writer.old) (W.given writer.new) result
        (session_in P.Peripheral session.new) session.new.counter.now }
    ensures session { KeepsSession P.Peripheral session.old session.new }
{
    buffer.clear();
    let Ok(()) = run_piece(alloc, lines, buffer, writer, session) else {
        return Err(WriteFault);
    };
    run_last(alloc, buffer, writer, session)
}

/// Runs the lines of a text in order, each whole before the next, and writes what each prints
/// (docs/reference/console.md). What is after the last line feed is a line too, unless it is empty. What the buffer
/// held before is dropped.
///
/// # Errors
///
/// [`WriteFault`] if a write failed. The line at which it failed and all before it were run, and no later one.
/// A front of what they print was written.
pub fn run_given_lines<W: Sink, D: Disk, P: Peripheral + Ends>(
    alloc: Global,
    lines: &[u8],
    buffer: &mut LineBuffer,
    writer: &mut W,
    counter: &mut Counter<D, P>,
    names: &mut Names,
    spares: &mut Spares<P>,
) -> Result<(), WriteFault>
    requires sound { IsCounterSound P.Peripheral counter.old }
    requires spares { AreSparesSound P.Peripheral spares.old }
    ensures lines { RunsGivenLines D.Disk P.Peripheral counter.old
        (session_of P.Peripheral names.old spares.old) (lines_of lines.now) (W.given writer.old)
        (W.given writer.new) result (session_of P.Peripheral names.new spares.new) counter.new }
    ensures sound { IsCounterSound P.Peripheral counter.new }
    ensures spares { AreSparesSound P.Peripheral spares.new }
{
    let mut session = Session {
        counter,
        names,
        spares,
    };
    run_given_text(alloc, lines, buffer, writer, &mut session)
}
