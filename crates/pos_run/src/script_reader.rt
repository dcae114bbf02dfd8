//! The reader of a script.
ghost use Rattle.std.specs.Prelude.{◌≡◌, ◌<◌, length};
ghost use Rattle.pos_run.specs.declared.script_reader.ReadState.TheVariants as read_state;
ghost use Rattle.pos_run.specs.Streams.{IsFlushed, ReadsScript, reading_of, writing_of};

use crate::answers::AnswerWriter;
use pos_streams::{ReadFault, Sink, Source};

/// What the last read of a script found.
#[derive(Clone, Copy, PartialEq, Eq)]
pub(crate) enum ReadState {
    /// Bytes, or there was no read yet.
    Open,
    /// The end.
    Ended,
    /// A fault of the source, which may have been interrupted.
    Failed,
}

/// How often a script is read, at most.
const MOST_READS: u64 = 1_073_741_824;

/// A reader of a script. It counts its reads and remembers what the last one found. After a failed read, and after
/// 1,073,741,824 reads, each read fails and doesn't ask the source.
#[derive(Drop)]
pub struct ScriptReader<R> {
    reader: R,
    reads: u64,
    state: ReadState,
}

impl<R: Source> ScriptReader<R> {
    /// Returns a reader that has read nothing.
    pub fn new(reader: R) -> Self
        ensures reader { result.reader ≡ reader }
        ensures reads { result.reads ≡ 0 }
        ensures state { result.state ≡ read_state.Open }
    {
        ScriptReader {
            reader,
            reads: 0,
            state: ReadState::Open,
        }
    }

    /// Reads once into a buffer, after all answers were flushed. Returns how many bytes it read, 0 at the end.
    ///
    /// # Errors
    ///
    /// [`ReadFault`] if the read failed, one had failed before, or there were as many as there may be.
    pub fn read<W: Sink>(
        &mut self,
        answers: &AnswerWriter<W>,
        buffer: &mut [u8],
    ) -> Result<usize, ReadFault>
        requires answered { IsFlushed (writing_of W.Sink answers.now) }
        requires room { 0 < length buffer.old }
        ensures { ReadsScript (reading_of R.Source self.old) buffer.new result (reading_of R.Source self.new) }
    {
        if self.state == ReadState::Failed || self.reads >= MOST_READS {
            return Err(ReadFault);
        }
        self.reads += 1;
        match self.reader.read(buffer) {
            Ok(0) => {
                self.state = ReadState::Ended;
                Ok(0)
            }
            Ok(count) => {
                self.state = ReadState::Open;
                Ok(count)
            }
            Err(fault) => {
                self.state = ReadState::Failed;
                Err(fault)
            }
        }
    }
}
