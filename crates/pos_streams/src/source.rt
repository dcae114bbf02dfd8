//! A stream from which bytes are taken.
ghost use Rattle.std.specs.Prelude.{◌<◌, length};
ghost use Rattle.pos_streams.specs.Streams.{TakesBytes, Taken};

/// A read that failed or was interrupted.
#[derive(Clone, Copy, PartialEq, Eq)]
pub struct ReadFault;

/// A stream from which bytes are taken.
pub trait Source {
    // What was taken from it so far.
    ghost taken: { Self → Taken };

    /// Takes some bytes into a buffer that is not empty, and returns how many: none at the end.
    ///
    /// # Errors
    ///
    /// [`ReadFault`] if the read failed or was interrupted. Then no byte was taken.
    fn read(&mut self, buffer: &mut [u8]) -> Result<usize, ReadFault>
        requires { 0 < length buffer.old }
        ensures { TakesBytes (taken self.old) buffer.new result (taken self.new) };
}

impl<S: Source> Source for &mut S {
    ghost taken = { λ source. S.taken source.now };

    #[inline(always)]
    fn read(&mut self, buffer: &mut [u8]) -> Result<usize, ReadFault> {
        Source::read(&mut **self, buffer)
    }
}
