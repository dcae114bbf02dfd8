//! A line of a script, from its words to what it prints.
//!
//! The kinds of most lines run in place where they are read, and the rare ones in functions of their own.
//! So no line needs room for the largest of them.
ghost use Rattle.std.specs.Prelude.{Ok};
ghost use Rattle.pos_counter.specs.Steps.{CallOf};
ghost use Rattle.pos_script.specs.Arguments.{Reads, from_none};
ghost use Rattle.pos_script.specs.Commands.{line_of, request_of_words};
ghost use Rattle.pos_script.specs.Lines.{words_of};
ghost use Rattle.pos_run.specs.LineRuns.{RunsRead, RunsReading};
ghost use Rattle.pos_run.specs.Sessions.{IsSessionSound, KeepsSession, session_in};
ghost use Rattle.pos_run.specs.Transcript.{asked_as};

use crate::session::{Asks, Session};
use pos_disk::Disk;
use pos_script::{
    ArgumentFault, CallVerb, Command, DeviceVerb, LineReply, Verb, print_answer, print_fault,
    print_reply, read_called, read_category, read_command, read_happening, read_method, read_none,
    read_property, read_reply, read_spare,
};
use pos_service::{Call, Ends, Peripheral, Response};
use pos_streams::{Sink, WriteFault};
use std::alloc::Global;

/// Returns the verb of a line that has no more words.
///
/// # Errors
///
/// [`ArgumentFault`] if it has more.
fn read_alone(by: DeviceVerb, words: &[u8]) -> Result<DeviceVerb, ArgumentFault>
    ensures { Reads (from_none by (words_of words.now)) result }
{
    read_none(words).map(|_| by)
}

/// Asks what was read of a line after its name, and writes the reply, or why it was not read.
///
/// # Errors
///
/// [`WriteFault`] if a write failed.
#[inline(always)]
#[tactic(auto, using(crate::proofs::SessionLemmas::asks_nothing_unread))]
fn run_read<W: Sink, D: Disk, P: Peripheral, A: Asks<D, P>>(
    writer: &mut W,
    session: &mut Session<'_, D, P>,
    name: &[u8],
    read: &Result<A, ArgumentFault>,
) -> Result<(), WriteFault>
    requires sound { IsSessionSound P.Peripheral session.old }
    ensures line { RunsRead D.Disk P.Peripheral session.old.counter.now (session_in P.Peripheral session.old)
        (asked_as (A.asked name.now) read.now) (W.given writer.old) (W.given writer.new) result
        (session_in P.Peripheral session.new) session.new.counter.now }
    ensures session { KeepsSession P.Peripheral session.old session.new }
{
    match read {
        Ok(asked) => print_reply(writer, asked.ask(name, session)),
        Err(fault) => print_fault(writer, *fault),
    }
}

/// Does the same as `run_read`, in a function of its own, since it is rare.
///
/// # Errors
///
/// [`WriteFault`] if a write failed.
#[inline(never)]
fn run_rare<W: Sink, D: Disk, P: Peripheral, A: Asks<D, P>>(
    writer: &mut W,
    session: &mut Session<'_, D, P>,
    name: &[u8],
    read: Result<A, ArgumentFault>,
) -> Result<(), WriteFault>
    requires sound { IsSessionSound P.Peripheral session.old }
    ensures line { RunsRead D.Disk P.Peripheral session.old.counter.now (session_in P.Peripheral session.old)
        (asked_as (A.asked name.now) read) (W.given writer.old) (W.given writer.new) result
        (session_in P.Peripheral session.new) session.new.counter.now }
    ensures session { KeepsSession P.Peripheral session.old session.new }
{
    run_read(writer, session, name, &read)
}

/// Calls the control of a name, and writes the answer. Each answer is written where it is known, so none is copied into
/// the reply to any line.
///
/// # Errors
///
/// [`WriteFault`] if a write failed.
#[inline(always)]
fn run_called<W: Sink, D: Disk, P: Peripheral>(
    writer: &mut W,
    session: &mut Session<'_, D, P>,
    name: &[u8],
    call: &Call,
) -> Result<(), WriteFault>
    requires sound { IsSessionSound P.Peripheral session.old }
    ensures line { RunsRead D.Disk P.Peripheral session.old.counter.now (session_in P.Peripheral session.old)
        (Ok (CallOf name.now call.now)) (W.given writer.old) (W.given writer.new) result
        (session_in P.Peripheral session.new) session.new.counter.now }
    ensures session { KeepsSession P.Peripheral session.old session.new }
{
    let Some(number) = session.names.find(name) else {
        return print_reply(writer, LineReply::BadControl);
    };
    match &session.counter.call(number, call) {
        Ok(answer) => print_answer(writer, answer),
        Err(_) => print_reply(writer, LineReply::Responded(Response::OutOfMemory)),
    }
}

/// Makes the call that was read of a line on the control of a name, and writes the answer, or why it was not read.
///
/// # Errors
///
/// [`WriteFault`] if a write failed.
#[inline(always)]
#[tactic(auto, using(crate::proofs::SessionLemmas::asks_nothing_unread))]
fn run_read_call<W: Sink, D: Disk, P: Peripheral>(
    writer: &mut W,
    session: &mut Session<'_, D, P>,
    name: &[u8],
    read: &Result<Call, ArgumentFault>,
) -> Result<(), WriteFault>
    requires sound { IsSessionSound P.Peripheral session.old }
    ensures line { RunsRead D.Disk P.Peripheral session.old.counter.now (session_in P.Peripheral session.old)
        (asked_as (λ call. CallOf name.now call) read.now) (W.given writer.old) (W.given writer.new) result
        (session_in P.Peripheral session.new) session.new.counter.now }
    ensures session { KeepsSession P.Peripheral session.old session.new }
{
    match read {
        Ok(call) => run_called(writer, session, name, call),
        Err(fault) => print_fault(writer, *fault),
    }
}

/// Runs a line that calls a control, and writes what it prints.
///
/// # Errors
///
/// [`WriteFault`] if a write failed.
#[inline(always)]
#[tactic(auto, using(crate::proofs::SessionLemmas::asks_by_words))]
fn run_call<W: Sink, D: Disk, P: Peripheral>(
    alloc: Global,
    writer: &mut W,
    session: &mut Session<'_, D, P>,
    name: &[u8],
    by: CallVerb,
    words: &[u8],
) -> Result<(), WriteFault>
    requires sound { IsSessionSound P.Peripheral session.old }
    ensures line { RunsReading D.Disk P.Peripheral session.old.counter.now (session_in P.Peripheral session.old)
        (line_of (Verb.Call by) name.now (words_of words.now)) (W.given writer.old) (W.given writer.new) result
        (session_in P.Peripheral session.new) session.new.counter.now }
    ensures session { KeepsSession P.Peripheral session.old session.new }
{
    let called = read_called(alloc, by, words);
    run_read_call(writer, session, name, &called)
}

/// Runs a line that asks for a property, and writes what it prints. Its call is made in place, as the one after
/// is read, since both are large.
///
/// # Errors
///
/// [`WriteFault`] if a write failed.
#[inline(always)]
fn run_get<W: Sink, D: Disk, P: Peripheral>(
    alloc: Global,
    writer: &mut W,
    session: &mut Session<'_, D, P>,
    name: &[u8],
    words: &[u8],
) -> Result<(), WriteFault>
    requires sound { IsSessionSound P.Peripheral session.old }
    ensures line { RunsReading D.Disk P.Peripheral session.old.counter.now (session_in P.Peripheral session.old)
        (line_of (Verb.Call CallVerb.Get) name.now (words_of words.now)) (W.given writer.old) (W.given writer.new)
        result (session_in P.Peripheral session.new) session.new.counter.now }
    ensures session { KeepsSession P.Peripheral session.old session.new }
{
    match read_property(alloc, words) {
        Ok(property) => {
            let call = Call::Get(property);
            run_called(writer, session, name, &call)
        }
        Err(fault) => print_fault(writer, fault),
    }
}

/// Runs a line that calls a method, and writes what it prints.
///
/// # Errors
///
/// [`WriteFault`] if a write failed.
#[inline(always)]
#[tactic(auto, using(crate::proofs::SessionLemmas::asks_by_words))]
fn run_method<W: Sink, D: Disk, P: Peripheral>(
    alloc: Global,
    writer: &mut W,
    session: &mut Session<'_, D, P>,
    name: &[u8],
    words: &[u8],
) -> Result<(), WriteFault>
    requires sound { IsSessionSound P.Peripheral session.old }
    ensures line { RunsReading D.Disk P.Peripheral session.old.counter.now (session_in P.Peripheral session.old)
        (line_of (Verb.Call CallVerb.Method) name.now (words_of words.now)) (W.given writer.old) (W.given writer.new)
        result (session_in P.Peripheral session.new) session.new.counter.now }
    ensures session { KeepsSession P.Peripheral session.old session.new }
{
    run_read_call(writer, session, name, &read_method(alloc, words))
}

/// Runs a line by which something happens at a device, and writes what it prints.
///
/// # Errors
///
/// [`WriteFault`] if a write failed.
#[inline(always)]
#[tactic(auto, using(crate::proofs::SessionLemmas::asks_by_words))]
fn run_input<W: Sink, D: Disk, P: Peripheral>(
    alloc: Global,
    writer: &mut W,
    session: &mut Session<'_, D, P>,
    name: &[u8],
    words: &[u8],
) -> Result<(), WriteFault>
    requires sound { IsSessionSound P.Peripheral session.old }
    ensures line { RunsReading D.Disk P.Peripheral session.old.counter.now (session_in P.Peripheral session.old)
        (line_of Verb.Input name.now (words_of words.now)) (W.given writer.old) (W.given writer.new) result
        (session_in P.Peripheral session.new) session.new.counter.now }
    ensures session { KeepsSession P.Peripheral session.old session.new }
{
    run_read(writer, session, name, &read_happening(alloc, words))
}

/// Runs a line that delivers an event, and writes what it prints.
///
/// # Errors
///
/// [`WriteFault`] if a write failed.
#[inline(always)]
#[tactic(auto, using(crate::proofs::SessionLemmas::asks_by_words))]
fn run_delivery<W: Sink, D: Disk, P: Peripheral>(
    alloc: Global,
    writer: &mut W,
    session: &mut Session<'_, D, P>,
    name: &[u8],
    words: &[u8],
) -> Result<(), WriteFault>
    requires sound { IsSessionSound P.Peripheral session.old }
    ensures line { RunsReading D.Disk P.Peripheral session.old.counter.now (session_in P.Peripheral session.old)
        (line_of Verb.Deliver name.now (words_of words.now)) (W.given writer.old) (W.given writer.new) result
        (session_in P.Peripheral session.new) session.new.counter.now }
    ensures session { KeepsSession P.Peripheral session.old session.new }
{
    let reply = read_reply(alloc, words);
    run_read(writer, session, name, &reply)
}

/// Runs a line that was taken apart, and writes what it prints.
///
/// # Errors
///
/// [`WriteFault`] if a write failed.
#[inline(always)]
#[tactic(auto, using(crate::proofs::SessionLemmas::asks_by_words))]
fn run_command<W: Sink, D: Disk, P: Peripheral + Ends>(
    alloc: Global,
    writer: &mut W,
    session: &mut Session<'_, D, P>,
    command: Command<'_>,
) -> Result<(), WriteFault>
    requires sound { IsSessionSound P.Peripheral session.old }
    ensures line { RunsReading D.Disk P.Peripheral session.old.counter.now (session_in P.Peripheral session.old)
        (line_of command.entry.verb command.entry.name (words_of command.entry.words.now))
        (W.given writer.old) (W.given writer.new) result
        (session_in P.Peripheral session.new) session.new.counter.now }
    ensures session { KeepsSession P.Peripheral session.old session.new }
{
    let Command { verb, name, words } = command;
    let name = name.as_slice();
    match verb {
        Verb::New => {
            let category = read_category(alloc, words);
            run_rare(writer, session, name, category)
        }
        Verb::Call(CallVerb::Get) => run_get(alloc, writer, session, name, words),
        Verb::Call(CallVerb::Method) => run_method(alloc, writer, session, name, words),
        Verb::Call(by) => run_call(alloc, writer, session, name, by, words),
        Verb::Input => run_input(alloc, writer, session, name, words),
        Verb::Deliver => run_delivery(alloc, writer, session, name, words),
        Verb::Attach => {
            let spare = read_spare(alloc, words);
            run_rare(writer, session, name, spare)
        }
        Verb::Device(by) => {
            let verb = read_alone(by, words);
            run_rare(writer, session, name, verb)
        }
    }
}

/// Runs a line that is well spelled and not quiet, and writes what it prints.
///
/// # Errors
///
/// [`WriteFault`] if a write failed.
#[inline(never)]
#[tactic(auto, using(crate::proofs::SessionLemmas::asks_nothing_misshapen))]
pub(crate) fn run_words<W: Sink, D: Disk, P: Peripheral + Ends>(
    alloc: Global,
    writer: &mut W,
    session: &mut Session<'_, D, P>,
    words: &[u8],
) -> Result<(), WriteFault>
    requires sound { IsSessionSound P.Peripheral session.old }
    ensures line { RunsReading D.Disk P.Peripheral session.old.counter.now (session_in P.Peripheral session.old)
        (request_of_words (words_of words.now)) (W.given writer.old) (W.given writer.new) result
        (session_in P.Peripheral session.new) session.new.counter.now }
    ensures session { KeepsSession P.Peripheral session.old session.new }
{
    match read_command(words) {
        Some(command) => run_command(alloc, writer, session, command),
        None => print_reply(writer, LineReply::BadLine),
    }
}
