//! The writer of answers.
ghost use Rattle.std.specs.Prelude.{◌≡◌, ◌++◌, ◌≤◌, ◌<◌, [], length, drop, IfOk, OnOk};
ghost use Rattle.pos_streams.specs.Streams.{Flushes, GivesBytes};
ghost use Rattle.pos_run.specs.Streams.{IsFlushed, WritesFront, answers_of, writing_of};

use pos_streams::{Sink, WriteFault};
use std::alloc::{AllocError, Global};

/// How many bytes of answers are held back, at most.
const MOST_HELD: usize = 65_536;

/// Writes bytes to their end, and stops at the first write that fails. Returns how many were written, and whether it
/// failed.
pub(crate) fn write_front<W: Sink>(writer: &mut W, bytes: &[u8]) -> (usize, Result<(), WriteFault>)
    ensures bound { result.0 ≤ length bytes.now }
    ensures given { WritesFront (W.given writer.old) bytes.now result.0 result.1 (W.given writer.new) }
{
    let mut done = 0;
    while done < bytes.len() {
        match writer.write(&bytes[done..]) {
            Ok(count) => done += count,
            Err(fault) => return (done, Err(fault)),
        }
    }
    (done, Ok(()))
}

/// Removes this many bytes at the front of a list.
fn remove_front(bytes: &mut Vec<u8>, count: usize)
    requires { count ≤ length bytes.old.items }
    ensures { bytes.new.items ≡ drop count bytes.old.items }
{
    let len = bytes.len();
    bytes.as_mut_slice().copy_within(count..len, 0);
    bytes.truncate(len - count);
}

/// A writer of answers. It gathers them in a buffer that is made at the start, and writes them to its sink when that is
/// full and at a flush. Each failed write of the sink is a fault. What is held back when it ends is not written.
#[derive(Drop)]
pub struct AnswerWriter<W> {
    writer: W,
    held: Vec<u8>,
}

impl<W: Sink + Drop> AnswerWriter<W> {
    /// Returns a writer that holds nothing back.
    ///
    /// # Errors
    ///
    /// [`AllocError`] if there is no memory for its buffer.
    pub fn new(alloc: Global, writer: W) -> Result<Self, AllocError>
        ensures writer { IfOk result (λ answers. answers.writer ≡ writer) }
        ensures held { IfOk result (λ answers. answers.held.items ≡ []) }
    {
        let held = Vec::with_capacity(alloc, MOST_HELD)?;
        Ok(AnswerWriter { writer, held })
    }
}

impl<W: Sink> AnswerWriter<W> {
    /// Writes what is held back to the sink.
    ///
    /// # Errors
    ///
    /// [`WriteFault`] if a write failed. The rest is still held back.
    fn hand_on(&mut self) -> Result<(), WriteFault>
        ensures given { Flushes (answers_of W.Sink self.old) result (answers_of W.Sink self.new) }
        ensures held { OnOk result (self.new.held.items ≡ []) }
    {
        let (count, result) = write_front(&mut self.writer, self.held.as_slice());
        remove_front(&mut self.held, count);
        result
    }

    /// Writes what is held back to the sink. Then it holds these bytes back, or writes them to the sink if there is no
    /// room for them. It is a function of its own, since this is rare.
    ///
    /// # Errors
    ///
    /// [`WriteFault`] if a write failed.
    #[inline(never)]
    fn write_first(&mut self, bytes: &[u8]) -> Result<usize, WriteFault>
        requires { 0 < length bytes.now }
        ensures { GivesBytes (answers_of W.Sink self.old) bytes.now result (answers_of W.Sink self.new) }
    {
        self.hand_on()?;
        if bytes.len() > self.held.capacity() {
            return self.writer.write(bytes);
        }
        match self.held.extend_from_slice(bytes) {
            Ok(()) => Ok(bytes.len()),
            Err(_) => Err(WriteFault),
        }
    }
}

impl<W: Sink> Sink for AnswerWriter<W> {
    ghost given = { λ answers. answers_of W.Sink answers };

    ghost unflushed = { λ answers. W.unflushed answers.writer ++ answers.held.items };

    #[inline(always)]
    fn write(&mut self, bytes: &[u8]) -> Result<usize, WriteFault> {
        if bytes.len() > self.held.capacity() - self.held.len() {
            return self.write_first(bytes);
        }
        match self.held.extend_from_slice(bytes) {
            Ok(()) => Ok(bytes.len()),
            Err(_) => Err(WriteFault),
        }
    }

    fn flush(&mut self) -> Result<(), WriteFault>
        ensures given { Flushes (answers_of W.Sink self.old) result (answers_of W.Sink self.new) }
        ensures flushed { OnOk result (IsFlushed (writing_of W.Sink self.new)) }
        ensures unflushed { OnOk result (W.unflushed self.new.writer ++ self.new.held.items ≡ []) }
    {
        self.hand_on()?;
        self.writer.flush()
    }
}
