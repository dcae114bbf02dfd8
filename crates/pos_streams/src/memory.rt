//! A source and a sink in memory.
ghost use Rattle.std.specs.Prelude.{◌≡◌, [], Some, length, ℕ};
ghost use Rattle.pos_streams.specs.Streams.{given_with, taken_with};
ghost use Rattle.pos_streams.specs.Transfers.{given_to, taken_from};

use crate::sink::{Sink, WriteFault};
use crate::source::{ReadFault, Source};
use crate::trace::Count;
use std::alloc::Global;

/// A source of bytes in memory. It never fails.
#[derive(Drop)]
pub struct MemorySource<'a> {
    bytes: &'a [u8],
    position: usize,
    ends: Count,
}

impl<'a> MemorySource<'a> {
    /// Returns a source of these bytes, from which nothing was taken.
    pub fn new(bytes: &'a [u8]) -> Self
        ensures { taken_from result ≡ taken_with [] 0 0 (Some bytes.now) }
    {
        MemorySource {
            bytes,
            position: 0,
            ends: Count::new(),
        }
    }
}

impl<'a> Source for MemorySource<'a> {
    ghost taken = { λ source. taken_from source };

    fn read(&mut self, buffer: &mut [u8]) -> Result<usize, ReadFault> {
        let position = self.position.min(self.bytes.len());
        let count = buffer.len().min(self.bytes.len() - position);
        if count == 0 {
            self.ends = self.ends.once_more();
            return Ok(0);
        }
        buffer[..count].copy_from_slice(&self.bytes[position..position + count]);
        self.position = position + count;
        Ok(count)
    }
}

/// A sink that keeps what it is given in memory. If memory runs out, the write is a fault.
#[derive(Drop)]
pub struct MemorySink {
    bytes: Vec<u8>,
    faults: Count,
}

impl MemorySink {
    /// Returns a sink that was given nothing.
    pub fn new(alloc: Global) -> Self
        ensures { given_to result ≡ given_with [] 0 }
    {
        MemorySink {
            bytes: Vec::new(alloc),
            faults: Count::new(),
        }
    }

    /// Returns the bytes that it was given.
    pub fn as_slice(&self) -> &[u8]
        ensures { result.now ≡ (given_to self.now).bytes }
    {
        self.bytes.as_slice()
    }

    /// Forgets the bytes that it was given. The memory that they took is kept for later ones.
    pub fn clear(&mut self)
        ensures { given_to self.new ≡ given_with [] (given_to self.old).faults }
    {
        self.bytes.clear();
    }
}

impl Sink for MemorySink {
    ghost given = { λ sink. given_to sink };

    ghost unflushed = { λ _. [] };

    fn write(&mut self, bytes: &[u8]) -> Result<usize, WriteFault> {
        match self.bytes.extend_from_slice(bytes) {
            Ok(()) => Ok(bytes.len()),
            Err(_) => {
                self.faults = self.faults.once_more();
                Err(WriteFault)
            }
        }
    }

    fn flush(&mut self) -> Result<(), WriteFault> {
        Ok(())
    }
}
