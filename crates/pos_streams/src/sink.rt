//! A stream to which bytes are given.
ghost use Rattle.std.specs.Prelude.{◌≡◌, ◌<◌, [], List, ℕ, OnOk, length};
ghost use Rattle.pos_streams.specs.Streams.{Flushes, Given, GivesBytes};

/// A write or a flush that failed or was interrupted, or a write that took nothing.
#[derive(Clone, Copy, PartialEq, Eq)]
pub struct WriteFault;

/// A stream to which bytes are given.
pub trait Sink {
    // What it was given so far.
    ghost given: { Self → Given };

    // What it was given since it was last flushed.
    ghost unflushed: { Self → List ℕ };

    /// Gives the front of some bytes that are not empty, at least one byte, and returns how many.
    ///
    /// # Errors
    ///
    /// [`WriteFault`] if the write failed, was interrupted or took nothing. Then no byte was given.
    fn write(&mut self, bytes: &[u8]) -> Result<usize, WriteFault>
        requires { 0 < length bytes.now }
        ensures { GivesBytes (given self.old) bytes.now result (given self.new) };

    /// Passes on all that it was given.
    ///
    /// # Errors
    ///
    /// [`WriteFault`] if that failed or was interrupted.
    fn flush(&mut self) -> Result<(), WriteFault>
        ensures given { Flushes (given self.old) result (given self.new) }
        ensures flushed { OnOk result (unflushed self.new ≡ []) };
}

impl<S: Sink> Sink for &mut S {
    ghost given = { λ sink. S.given sink.now };

    ghost unflushed = { λ sink. S.unflushed sink.now };

    #[inline(always)]
    fn write(&mut self, bytes: &[u8]) -> Result<usize, WriteFault> {
        Sink::write(&mut **self, bytes)
    }

    #[inline(always)]
    fn flush(&mut self) -> Result<(), WriteFault> {
        Sink::flush(&mut **self)
    }
}
