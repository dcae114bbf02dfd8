//! The adapters over the readers and writers of the standard library.
//!
//! This file is read by eye; no other of this crate has to be. No contract can see what a reader or a writer does
//! outside memory. So no proof says that `read`, `write` and `flush` ask it exactly once and add its answer to the
//! trace. See that each of these three bodies does. All else about them is proved, and so is all that is built on them.
//! Over memory the clauses `known` say it too.
ghost use Rattle.std.specs.Prelude.{◌≡◌, [], OnOk, None};
ghost use Rattle.std.specs.Io.KnownBytes.{Keeps, ReadConsumes, WriteAppends};
ghost use Rattle.pos_streams.specs.Streams.{Flushes, GivesBytes, HoldsBack, TakesBytes, given_with, taken_with};
ghost use Rattle.pos_streams.specs.Transfers.{given_by, taken_by};

use crate::sink::{Sink, WriteFault};
use crate::source::{ReadFault, Source};
use crate::transfers::{GivenTrace, TakenTrace};
use std::io::{Read, Write};

/// A source over a reader of the standard library. An interrupted read is a fault.
#[derive(Drop)]
pub struct ReaderSource<R> {
    reader: R,
    taken: TakenTrace,
}

impl<R: Read> ReaderSource<R> {
    /// Returns a source from which nothing was taken.
    pub fn new(reader: R) -> Self
        ensures reader { result.reader ≡ reader }
        ensures taken { taken_by result.taken ≡ taken_with [] 0 0 None }
    {
        ReaderSource {
            reader,
            taken: TakenTrace::new(),
        }
    }
}

impl<R: Read> Source for ReaderSource<R> {
    ghost taken = { λ source. taken_by source.taken };

    #[inline(always)]
    fn read(&mut self, buffer: &mut [u8]) -> Result<usize, ReadFault>
        ensures taken { TakesBytes (taken_by self.old.taken) buffer.new result (taken_by self.new.taken) }
        ensures known { ReadConsumes (R.remaining self.old.reader) (R.remaining self.new.reader) result buffer.new }
    {
        let answer = self.reader.read(buffer);
        self.taken.add(buffer, answer)
    }
}

/// A sink over a writer of the standard library. An interrupted write is a fault, and so is one that takes nothing.
#[derive(Drop)]
pub struct WriterSink<W> {
    writer: W,
    given: GivenTrace,
}

impl<W: Write> WriterSink<W> {
    /// Returns a sink that was given nothing.
    pub fn new(writer: W) -> Self
        ensures writer { result.writer ≡ writer }
        ensures given { given_by result.given ≡ given_with [] 0 }
        ensures unflushed { result.given.unflushed.bytes ≡ [] }
    {
        WriterSink {
            writer,
            given: GivenTrace::new(),
        }
    }
}

impl<W: Write> Sink for WriterSink<W> {
    ghost given = { λ sink. given_by sink.given };

    ghost unflushed = { λ sink. sink.given.unflushed.bytes };

    #[inline(always)]
    fn write(&mut self, bytes: &[u8]) -> Result<usize, WriteFault>
        ensures given { GivesBytes (given_by self.old.given) bytes.now result (given_by self.new.given) }
        ensures unflushed { HoldsBack self.old.given.unflushed.bytes bytes.now result self.new.given.unflushed.bytes }
        ensures known { WriteAppends (W.contents self.old.writer) (W.contents self.new.writer) result bytes.now }
    {
        let answer = self.writer.write(bytes);
        self.given.add(bytes, answer)
    }

    #[inline(always)]
    fn flush(&mut self) -> Result<(), WriteFault>
        ensures given { Flushes (given_by self.old.given) result (given_by self.new.given) }
        ensures flushed { OnOk result (self.new.given.unflushed.bytes ≡ []) }
        ensures known { Keeps (W.contents self.old.writer) (W.contents self.new.writer) }
    {
        let answer = self.writer.flush();
        self.given.add_flush(answer)
    }
}
