//! Files that are closed before answers are written.
ghost use Rattle.std.specs.Prelude.{List, ⊤};
ghost use Rattle.pos_file.specs.Calls.{Call};
ghost use Rattle.pos_run.specs.Streams.{Writing, writing_of};

use pos_file::BlockFile;
use pos_program::{SystemFiles, TotalsDisk, close_totals};
use pos_run::AnswerWriter;
use pos_streams::Sink;

/// Closes files before a text is written.
pub trait FileCloser {
    /// What is known of a file that was closed while a writer stood like this, by the calls that the file was asked:
    /// nothing, where a type doesn't say more.
    ghost closes: { Self → List Call → Writing → Type 0 } = { λ _ _ _. ⊤ };

    /// Closes totals that were only read. Contracts name the writer as it stands, and so say that what is written of
    /// the totals is written afterwards: code over any files has that only from here.
    fn close_before<F: BlockFile + Drop, W: Sink>(
        &self,
        totals: TotalsDisk<F>,
        writer: &AnswerWriter<W>,
    )
        ensures closed { F.closed totals.below.file }
        ensures before { closes self.now (F.calls totals.below.file) (writing_of W.Sink writer.now) };
}

impl<S> FileCloser for SystemFiles<'_, S> {
    fn close_before<F: BlockFile + Drop, W: Sink>(
        &self,
        totals: TotalsDisk<F>,
        _writer: &AnswerWriter<W>,
    ) {
        close_totals(totals);
    }
}
