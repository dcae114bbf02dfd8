//! What a line prints, until it is known whether the line waits for the host.
ghost use Rattle.std.specs.Prelude.{◌≡◌, ◌≤◌, ◌⊎◌, [], bytes_eq, codes, length};
ghost use Rattle.pos_run.specs.WaitingLines.{text_of};
ghost use Rattle.pos_script.specs.Writing.{Writes};
ghost use Rattle.pos_streams.specs.Streams.{given_with};

use pos_script::write_bytes;
use pos_streams::{MemorySink, Sink, WriteFault};
use std::alloc::Global;

/// How many bytes are kept without memory: one more than a line prints that finds no memory.
const SHORT: usize = 8;

/// Returns whether this is what a line prints that finds no memory.
fn is_memory(printed: &[u8]) -> bool
    ensures { result ≡ bytes_eq printed.now (codes "memory\n") }
{
    printed == b"memory\n".as_slice()
}

/// What a line prints. Only a text of eight bytes or more can fail for want of memory.
#[derive(Drop)]
pub(crate) struct LineText {
    alloc: Global,
    first: [u8; 8],
    count: usize,
    rest: MemorySink,
}

impl LineText {
    /// Returns an empty text.
    pub(crate) fn new(alloc: Global) -> Self
        ensures { text_of result ≡ given_with [] 0 }
    {
        LineText {
            alloc,
            first: [0; 8],
            count: 0,
            rest: MemorySink::new(alloc),
        }
    }

    /// Returns whether it is what a line prints that finds no memory.
    pub(crate) fn is_memory(&self) -> bool
        ensures { result ≡ bytes_eq (text_of self.now).bytes (codes "memory\n") }
    {
        if self.count >= SHORT {
            return false;
        }
        is_memory(&self.first[..self.count])
    }

    /// A text that failed has eight bytes or more.
    pub(crate) fn fails_only_long(&self)
        ensures { let text = text_of self.now in (text.faults ≡ 0) ⊎ (8 ≤ length text.bytes) }
    {
        let _first = self.first.len();
    }

    /// Writes it to a sink.
    ///
    /// # Errors
    ///
    /// [`WriteFault`] if a write failed. Then only a front of it was written.
    pub(crate) fn write_to<W: Sink>(&self, writer: &mut W) -> Result<(), WriteFault>
        ensures { Writes (W.given writer.old) (W.given writer.new) (text_of self.now).bytes result }
    {
        if self.count < SHORT {
            return write_bytes(writer, &self.first[..self.count]);
        }
        let Ok(()) = write_bytes(writer, self.first.as_slice()) else {
            return Err(WriteFault);
        };
        write_bytes(writer, self.rest.as_slice())
    }
}

impl Sink for LineText {
    ghost given = { λ text. text_of text };

    ghost unflushed = { λ _. [] };

    #[inline(always)]
    fn write(&mut self, bytes: &[u8]) -> Result<usize, WriteFault> {
        if self.count >= SHORT {
            return self.rest.write(bytes);
        }
        self.first[self.count] = bytes[0];
        self.count += 1;
        if self.count == SHORT {
            self.rest = MemorySink::new(self.alloc);
        }
        Ok(1)
    }

    fn flush(&mut self) -> Result<(), WriteFault> {
        Ok(())
    }
}
