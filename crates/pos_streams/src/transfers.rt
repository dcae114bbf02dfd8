//! The traces that the adapters keep: each answer of a reader or a writer is added once, and returned.
ghost use Rattle.std.specs.Prelude.{◌≡◌, ◌≤◌, ◌<◌, [], IfOk, Ok, MatchResult, OnErr, OnOk, is_err, length, true, None};
ghost use Rattle.pos_streams.specs.Streams.{Flushes, GivesBytes, HoldsBack, TakesBytes, given_with, taken_with};
ghost use Rattle.pos_streams.specs.Transfers.{given_by, taken_by};

use crate::sink::WriteFault;
use crate::source::ReadFault;
use crate::trace::{Count, Trace};
use std::io;

/// What was taken from a source.
#[derive(Drop)]
pub(crate) struct TakenTrace {
    bytes: Trace,
    ends: Count,
    faults: Count,
}

impl TakenTrace {
    /// Returns the trace of a source from which nothing was taken.
    pub(crate) fn new() -> Self
        ensures { taken_by result ≡ taken_with [] 0 0 None }
    {
        TakenTrace {
            bytes: Trace::new(),
            ends: Count::new(),
            faults: Count::new(),
        }
    }

    /// Adds what a read into a buffer returned, and returns it again.
    ///
    /// # Errors
    ///
    /// [`ReadFault`] if the read failed.
    #[inline(always)]
    pub(crate) fn add(
        &mut self,
        buffer: &[u8],
        answer: io::Result<usize>,
    ) -> Result<usize, ReadFault>
        requires { IfOk answer (λ count. count ≤ length buffer.now) }
        ensures answer { MatchResult answer (λ count. result ≡ Ok count) (λ _. is_err result ≡ true) }
        ensures taken { TakesBytes (taken_by self.old) buffer.now result (taken_by self.new) }
    {
        match answer {
            Ok(0) => {
                self.ends = self.ends.once_more();
                Ok(0)
            }
            Ok(count) => {
                self.bytes = self.bytes.and(&buffer[..count]);
                Ok(count)
            }
            Err(_) => {
                self.faults = self.faults.once_more();
                Err(ReadFault)
            }
        }
    }
}

/// What a sink was given.
#[derive(Drop)]
pub(crate) struct GivenTrace {
    bytes: Trace,
    unflushed: Trace,
    faults: Count,
}

impl GivenTrace {
    /// Returns the trace of a sink that was given nothing.
    pub(crate) fn new() -> Self
        ensures given { given_by result ≡ given_with [] 0 }
        ensures unflushed { result.unflushed.bytes ≡ [] }
    {
        GivenTrace {
            bytes: Trace::new(),
            unflushed: Trace::new(),
            faults: Count::new(),
        }
    }

    /// Adds what a write of some bytes returned, and returns it again. A write that took nothing failed.
    ///
    /// # Errors
    ///
    /// [`WriteFault`] if the write failed or took nothing.
    #[inline(always)]
    pub(crate) fn add(
        &mut self,
        bytes: &[u8],
        answer: io::Result<usize>,
    ) -> Result<usize, WriteFault>
        requires { IfOk answer (λ count. count ≤ length bytes.now) }
        ensures ok { IfOk result (λ count. answer ≡ Ok count) }
        ensures err { OnErr result (IfOk answer (λ count. count ≡ 0)) }
        ensures given { GivesBytes (given_by self.old) bytes.now result (given_by self.new) }
        ensures unflushed { HoldsBack self.old.unflushed.bytes bytes.now result self.new.unflushed.bytes }
    {
        match answer {
            Ok(0) | Err(_) => {
                self.faults = self.faults.once_more();
                Err(WriteFault)
            }
            Ok(count) => {
                self.bytes = self.bytes.and(&bytes[..count]);
                self.unflushed = self.unflushed.and(&bytes[..count]);
                Ok(count)
            }
        }
    }

    /// Adds what a flush returned, and returns it again.
    ///
    /// # Errors
    ///
    /// [`WriteFault`] if the flush failed.
    #[inline(always)]
    pub(crate) fn add_flush(&mut self, answer: io::Result<()>) -> Result<(), WriteFault>
        ensures given { Flushes (given_by self.old) result (given_by self.new) }
        ensures flushed { OnOk result (self.new.unflushed.bytes ≡ []) }
    {
        match answer {
            Ok(()) => {
                self.unflushed = Trace::new();
                Ok(())
            }
            Err(_) => {
                self.faults = self.faults.once_more();
                Err(WriteFault)
            }
        }
    }
}
