//! Lines that may wait for what a host reports.
ghost use Rattle.std.specs.Prelude.{◌≡◌, ◌∷◌, [], ℕ, All, List};
ghost use Rattle.pos_counter.specs.Counters.{IsCounterSound};
ghost use Rattle.pos_run.specs.LineRuns.{session_of};
ghost use Rattle.pos_run.specs.Spares.{AreSparesSound};
ghost use Rattle.pos_run.specs.WaitingLines.{HoldsBy, IsOneLine, LeavesReady, LeavesOrder, LineLeaves, LinesLeave, is_out, text_of};
ghost use Rattle.pos_script.specs.Lines.{lines_of};

use crate::given_lines::run_given_lines;
use crate::line_texts::LineText;
use crate::names::Names;
use crate::spares::Spares;
use pos_counter::Counter;
use pos_disk::Disk;
use pos_drive::{Awaits, Progress};
use pos_script::LineBuffer;
use pos_service::{Ends, Peripheral};
use pos_streams::{Sink, WriteFault};
use std::alloc::Global;
use std::collections::VecDeque;

/// What becomes of a line.
#[derive(Clone, Copy, PartialEq, Eq)]
pub enum LineProgress {
    /// It was run, and what it prints was written.
    Printed,
    /// An order of it waits for the host. Nothing changed.
    Waits,
    /// The host has reported what became of its order, but there was no memory. Nothing changed.
    NoMemory,
}

/// Returns whether an order waits for the host, or the host has it.
fn is_out(progress: Progress) -> bool
    ensures { result ≡ is_out progress }
{
    matches!(progress, Progress::Waits | Progress::HandedOut)
}

/// Returns what becomes of a line that prints this, by how far the host is with a pending order.
fn held_by(progress: Progress, text: &LineText) -> LineProgress
    ensures { HoldsBy progress (text_of text.now).bytes result }
{
    if !text.is_memory() {
        return LineProgress::Printed;
    }
    match progress {
        Progress::Free | Progress::Ready => LineProgress::Printed,
        Progress::Waits | Progress::HandedOut => LineProgress::Waits,
        Progress::Reported => LineProgress::NoMemory,
    }
}

/// Runs a line, and writes what it prints, unless an order is pending then and the line found no memory.
///
/// # Errors
///
/// [`WriteFault`] if a write failed, or if memory ran out for what the line prints. The line was run, and a front of
/// what it prints was written, but not all.
fn run_held<W: Sink, D: Disk, P: Awaits + Ends>(
    alloc: Global,
    line: &[u8],
    buffer: &mut LineBuffer,
    writer: &mut W,
    counter: &mut Counter<D, P>,
    names: &mut Names,
    spares: &mut Spares<P>,
) -> Result<LineProgress, WriteFault>
    requires sound { IsCounterSound P.Peripheral counter.old }
    requires spares { AreSparesSound P.Peripheral spares.old }
    ensures line { (line_in : List ℕ) → lines_of line.now ≡ line_in ∷ [] →
        LineLeaves D.Disk P.Peripheral P.Awaits.course LeavesOrder counter.old
        (session_of P.Peripheral names.old spares.old) line_in (W.given writer.old) (W.given writer.new) result
        counter.new (session_of P.Peripheral names.new spares.new) }
    ensures sound { IsCounterSound P.Peripheral counter.new }
    ensures spares { AreSparesSound P.Peripheral spares.new }
{
    let mut text = LineText::new(alloc);
    let Ok(()) = run_given_lines(alloc, line, buffer, &mut text, counter, names, spares) else {
        text.fails_only_long();
        let _ = text.write_to(writer);
        return Err(WriteFault);
    };
    match held_by(counter.progress(), &text) {
        LineProgress::Printed => match text.write_to(writer) {
            Ok(()) => Ok(LineProgress::Printed),
            Err(_) => Err(WriteFault),
        },
        LineProgress::Waits => Ok(LineProgress::Waits),
        LineProgress::NoMemory => Ok(LineProgress::NoMemory),
    }
}

/// Runs a line likewise. After a line that isn't held back, no order is pending.
///
/// # Errors
///
/// [`WriteFault`] if a write failed, or if memory ran out for what the line prints. The line was run, and a front of
/// what it prints was written, but not all.
fn run_settled<W: Sink, D: Disk, P: Awaits + Ends>(
    alloc: Global,
    line: &[u8],
    buffer: &mut LineBuffer,
    writer: &mut W,
    counter: &mut Counter<D, P>,
    names: &mut Names,
    spares: &mut Spares<P>,
) -> Result<LineProgress, WriteFault>
    requires sound { IsCounterSound P.Peripheral counter.old }
    requires spares { AreSparesSound P.Peripheral spares.old }
    ensures line { (line_in : List ℕ) → lines_of line.now ≡ line_in ∷ [] →
        LineLeaves D.Disk P.Peripheral P.Awaits.course LeavesReady counter.old
        (session_of P.Peripheral names.old spares.old) line_in (W.given writer.old) (W.given writer.new) result
        counter.new (session_of P.Peripheral names.new spares.new) }
    ensures sound { IsCounterSound P.Peripheral counter.new }
    ensures spares { AreSparesSound P.Peripheral spares.new }
{
    match run_held(alloc, line, buffer, writer, counter, names, spares) {
        Ok(LineProgress::Printed) => {
            counter.settle();
            Ok(LineProgress::Printed)
        }
        Ok(LineProgress::Waits) => Ok(LineProgress::Waits),
        Ok(LineProgress::NoMemory) => Ok(LineProgress::NoMemory),
        Err(_) => {
            counter.settle();
            Err(WriteFault)
        }
    }
}

/// Runs lines from the front on, and writes what each prints, up to one that waits for the host. That one stays
/// the first of those that are left. Nothing runs while an order waits or the host has it.
///
/// # Errors
///
/// [`WriteFault`] if a write failed, or if memory ran out for what a line prints. That line was run and is removed. A
/// front of what it prints was written, but not all: eight bytes at least, if no write failed.
pub fn carry_on<W: Sink, D: Disk, P: Awaits + Ends>(
    alloc: Global,
    lines: &mut VecDeque<Vec<u8>>,
    buffer: &mut LineBuffer,
    writer: &mut W,
    counter: &mut Counter<D, P>,
    names: &mut Names,
    spares: &mut Spares<P>,
) -> Result<LineProgress, WriteFault>
    requires lines { All IsOneLine lines.old.items }
    requires sound { IsCounterSound P.Peripheral counter.old }
    requires spares { AreSparesSound P.Peripheral spares.old }
    ensures carried { LinesLeave D.Disk P.Peripheral P.Awaits.course counter.old
        (session_of P.Peripheral names.old spares.old) lines.old.items lines.new.items (W.given writer.old)
        (W.given writer.new) result counter.new (session_of P.Peripheral names.new spares.new) }
    ensures lines { All IsOneLine lines.new.items }
    ensures sound { IsCounterSound P.Peripheral counter.new }
    ensures spares { AreSparesSound P.Peripheral spares.new }
{
    if is_out(counter.progress()) {
        return Ok(LineProgress::Waits);
    }
    while let Some(line) = lines.front() {
        match run_settled(
            alloc,
            line.as_slice(),
            buffer,
            writer,
            counter,
            names,
            spares,
        ) {
            Ok(LineProgress::Printed) => {
                lines.pop_front();
            }
            Ok(LineProgress::Waits) => return Ok(LineProgress::Waits),
            Ok(LineProgress::NoMemory) => return Ok(LineProgress::NoMemory),
            Err(_) => {
                lines.pop_front();
                return Err(WriteFault);
            }
        }
    }
    counter.settle();
    Ok(LineProgress::Printed)
}
